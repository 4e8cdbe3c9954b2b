//! Homes that move. Client `a` and its packets are those of the examples of sessions, of two nodes that share them: `a` is at home at
//! node 1 until a table of version 1 puts it at node 0.

use super::Example;

pub const EXAMPLES: [Example; 7] = [
    Example {
        name: "a client is sent on, and subscribes at its new home",
        script: "nodes 2\nstart 0 0\nstart 1 0\nopen 1 1 0\nbytes 1 1 0 100e00044d5154540502003c00000161\nbytes 1 1 0 820700010000017400\nmove 1 1 a 0 0\nmove 0 1 a 0 0\nopen 0 1 0\nbytes 0 1 0 100e00044d5154540502003c00000161\nbytes 0 1 0 820700020000017400\nship 1 0 0\nship 0 1 0\ndeliver 1 0\ndeliver 2 0\n",
        status: 0,
        out: "sent 1 1 200e00000b2100642200102700100000\nsent 1 1 900400010000\nsent 1 1 e0139d111c000e3132372e302e302e313a31383833\nclosed 1 1\nsent 0 1 200e00000b2100642200102700100000\nsent 0 1 900400020000\nframe 1 1 0 delta\nframe 2 0 1 delta\nframe 3 0 1 know\nframe 4 1 0 know\nnode 0 subscriptions 1 retained 0\nnode 1 subscriptions 1 retained 0\ntaken 0 1 equal\n",
        err: "",
    },
    Example {
        name: "its old home crashes before the first move, which comes again",
        script: "nodes 2\nstart 0 0\nstart 1 0\nopen 1 1 0\nbytes 1 1 0 100e00044d5154540502003c00000161\nbytes 1 1 0 820700010000017400\ncrash before move 1 1 a 0 0\nrestart 1\nstart 1 0\nmove 1 1 a 0 0\nmove 0 1 a 0 0\nopen 0 1 0\nbytes 0 1 0 100e00044d5154540502003c00000161\nbytes 0 1 0 820700020000017400\nship 1 0 0\nship 0 1 0\ndeliver 1 0\ndeliver 2 0\n",
        status: 0,
        out: "sent 1 1 200e00000b2100642200102700100000\nsent 1 1 900400010000\ncrash 1\nsent 0 1 200e00000b2100642200102700100000\nsent 0 1 900400020000\nframe 1 1 0 delta\nframe 2 0 1 delta\nframe 3 0 1 know\nframe 4 1 0 know\nnode 0 subscriptions 1 retained 0\nnode 1 subscriptions 1 retained 0\ntaken 0 1 equal\n",
        err: "",
    },
    Example {
        name: "its old home crashes after the first move, and is opened with the table",
        script: "nodes 2\nstart 0 0\nstart 1 0\nopen 1 1 0\nbytes 1 1 0 100e00044d5154540502003c00000161\nbytes 1 1 0 820700010000017400\ncrash after move 1 1 a 0 0\nrestart 1\nstart 1 0\nopen 1 2 0\nbytes 1 2 0 100e00044d5154540502003c00000161\nmove 0 1 a 0 0\nopen 0 1 0\nbytes 0 1 0 100e00044d5154540502003c00000161\nbytes 0 1 0 820700020000017400\nship 1 0 0\nship 0 1 0\ndeliver 1 0\ndeliver 2 0\n",
        status: 0,
        out: "sent 1 1 200e00000b2100642200102700100000\nsent 1 1 900400010000\ncrash 1\nsent 1 2 2014009c111c000e3132372e302e302e313a31383833\nclosed 1 2\nsent 0 1 200e00000b2100642200102700100000\nsent 0 1 900400020000\nframe 1 1 0 delta\nframe 2 0 1 delta\nframe 3 0 1 know\nframe 4 1 0 know\nnode 0 subscriptions 1 retained 0\nnode 1 subscriptions 1 retained 0\ntaken 0 1 equal\n",
        err: "",
    },
    Example {
        name: "its new home is first: the subscription there stands before the move and after it",
        script: "nodes 2\nstart 0 0\nstart 1 0\nopen 1 1 0\nbytes 1 1 0 100e00044d5154540502003c00000161\nbytes 1 1 0 820700010000017400\nmove 0 1 a 0 0\nopen 0 1 0\nbytes 0 1 0 100e00044d5154540502003c00000161\nbytes 0 1 0 820700020000017400\nship 0 1 0\ndeliver 1 0\nmove 1 1 a 0 0\nship 1 0 0\ndeliver 3 0\n",
        status: 0,
        out: "sent 1 1 200e00000b2100642200102700100000\nsent 1 1 900400010000\nsent 0 1 200e00000b2100642200102700100000\nsent 0 1 900400020000\nframe 1 0 1 delta\nframe 2 1 0 know\nsent 1 1 e0139d111c000e3132372e302e302e313a31383833\nclosed 1 1\nframe 3 1 0 delta\nframe 4 0 1 know\nnode 0 subscriptions 1 retained 0\nnode 1 subscriptions 1 retained 0\ntaken 0 1 equal\n",
        err: "",
    },
    Example {
        name: "and where its old session ends by a close instead",
        script: "nodes 2\nstart 0 0\nstart 1 0\nopen 1 1 0\nbytes 1 1 0 100e00044d5154540502003c00000161\nbytes 1 1 0 820700010000017400\nmove 0 1 a 0 0\nopen 0 1 0\nbytes 0 1 0 100e00044d5154540502003c00000161\nbytes 0 1 0 820700020000017400\nship 0 1 0\ndeliver 1 0\nclose 1 1 0\nship 1 0 0\ndeliver 3 0\n",
        status: 0,
        out: "sent 1 1 200e00000b2100642200102700100000\nsent 1 1 900400010000\nsent 0 1 200e00000b2100642200102700100000\nsent 0 1 900400020000\nframe 1 0 1 delta\nframe 2 1 0 know\nframe 3 1 0 delta\nframe 4 0 1 know\nnode 0 subscriptions 1 retained 0\nnode 1 subscriptions 1 retained 0\ntaken 0 1 equal\n",
        err: "",
    },
    Example {
        name: "a table of no greater version changes nothing",
        script: "nodes 2\nstart 0 0\nstart 1 0\nopen 1 1 0\nbytes 1 1 0 100e00044d5154540502003c00000161\nmove 1 0 a 0 0\nbytes 1 1 0 820700010000017400\n",
        status: 0,
        out: "sent 1 1 200e00000b2100642200102700100000\nsent 1 1 900400010000\nnode 0 subscriptions 0 retained 0\nnode 1 subscriptions 1 retained 0\ntaken 0 1 differ\n",
        err: "",
    },
    Example {
        name: "a client with a will is sent on, and its will is passed on",
        script: "nodes 2\nstart 0 0\nstart 1 0\nopen 1 2 0\nbytes 1 2 0 100e00044d5154540502003c00000163\nbytes 1 2 0 820700010000017700\nopen 1 1 0\nbytes 1 1 0 101500044d5154540506003c0000016100000177000178\nmove 1 1 a 0 0\n",
        status: 0,
        out: "sent 1 2 200e00000b2100642200102700100000\nsent 1 2 900400010000\nsent 1 1 200e00000b2100642200102700100000\nsent 1 1 e0139d111c000e3132372e302e302e313a31383833\nclosed 1 1\nsent 1 2 30050001770078\nnode 0 subscriptions 0 retained 0\nnode 1 subscriptions 1 retained 0\ntaken 0 1 differ\n",
        err: "",
    },
];
