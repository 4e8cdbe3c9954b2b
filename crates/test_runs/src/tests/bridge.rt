//! Frames between two nodes: what is sent again, and messages for clients of the other node.

use super::Example;

pub const EXAMPLES: [Example; 5] = [
    Example {
        name: "a frame brings all that its sender had taken",
        script: "nodes 2\nstart 0 0\nstart 1 0\nopen 1 1 0\nbytes 1 1 0 100e00044d5154540502003c00000161\nbytes 1 1 0 3106000174006f6e\nship 1 0 0\nbytes 1 1 0 3106000174006f66\nship 1 0 0\ndeliver 2 0\n",
        status: 0,
        out: "sent 1 1 200e00000b2100642200102700100000\nframe 1 1 0 delta\nframe 2 1 0 delta\nframe 3 0 1 know\nnode 0 subscriptions 0 retained 1\nnode 1 subscriptions 0 retained 1\ntaken 0 1 equal\n",
        err: "",
    },
    Example {
        name: "what a node is known to have taken isn't sent again",
        script: "nodes 2\nstart 0 0\nstart 1 0\nopen 1 1 0\nbytes 1 1 0 100e00044d5154540502003c00000161\nbytes 1 1 0 3106000174006f6e\nship 1 0 0\nbytes 1 1 0 3106000174006f66\nship 1 0 0\ndeliver 2 0\ndeliver 1 0\ndeliver 4 0\ndeliver 3 0\nship 1 0 0\n",
        status: 0,
        out: "sent 1 1 200e00000b2100642200102700100000\nframe 1 1 0 delta\nframe 2 1 0 delta\nframe 3 0 1 know\nframe 4 0 1 know\nnode 0 subscriptions 0 retained 1\nnode 1 subscriptions 0 retained 1\ntaken 0 1 equal\n",
        err: "",
    },
    Example {
        name: "after a restart all is sent again, once",
        script: "nodes 2\nstart 0 0\nstart 1 0\nopen 1 1 0\nbytes 1 1 0 100e00044d5154540502003c00000161\nbytes 1 1 0 3106000174006f6e\nship 1 0 0\nbytes 1 1 0 3106000174006f66\nship 1 0 0\ndeliver 2 0\ndeliver 1 0\ndeliver 4 0\ndeliver 3 0\nship 1 0 0\nrestart 1\nstart 1 0\nship 1 0 0\ndeliver 5 0\ndeliver 6 0\nship 1 0 0\n",
        status: 0,
        out: "sent 1 1 200e00000b2100642200102700100000\nframe 1 1 0 delta\nframe 2 1 0 delta\nframe 3 0 1 know\nframe 4 0 1 know\nframe 5 1 0 delta\nframe 6 0 1 know\nnode 0 subscriptions 0 retained 1\nnode 1 subscriptions 0 retained 1\ntaken 0 1 equal\n",
        err: "",
    },
    Example {
        name: "after a restart and a greeting nothing is sent again",
        script: "nodes 2\nstart 0 0\nstart 1 0\nopen 1 1 0\nbytes 1 1 0 100e00044d5154540502003c00000161\nbytes 1 1 0 3106000174006f6e\nship 1 0 0\nbytes 1 1 0 3106000174006f66\nship 1 0 0\ndeliver 2 0\ndeliver 1 0\ndeliver 4 0\ndeliver 3 0\nship 1 0 0\nrestart 1\nstart 1 0\nlink 1 0 0\ndeliver 5 0\ndeliver 6 0\nship 1 0 0\n",
        status: 0,
        out: "sent 1 1 200e00000b2100642200102700100000\nframe 1 1 0 delta\nframe 2 1 0 delta\nframe 3 0 1 know\nframe 4 0 1 know\nframe 5 1 0 hello\nframe 6 0 1 know\nnode 0 subscriptions 0 retained 1\nnode 1 subscriptions 0 retained 1\ntaken 0 1 equal\n",
        err: "",
    },
    Example {
        name: "a message for a client of the other node is taken once",
        script: "nodes 2\nstart 0 0\nstart 1 0\nopen 0 1 0\nbytes 0 1 0 100e00044d5154540502003c00000162\nbytes 0 1 0 820700010000017401\nship 0 1 0\ndeliver 1 0\nopen 1 1 0\nbytes 1 1 0 100e00044d5154540502003c00000161\nbytes 1 1 0 320700017400070078\nship 1 0 0\ndeliver 4 0\ndeliver 4 0\ndeliver 5 0\nship 1 0 0\n",
        status: 0,
        out: "sent 0 1 200e00000b2100642200102700100000\nsent 0 1 900400010001\nframe 1 0 1 delta\nframe 2 1 0 know\nsent 1 1 200e00000b2100642200102700100000\nsent 1 1 40020007\nframe 3 1 0 delta\nframe 4 1 0 forward\nsent 0 1 320700017400010078\nframe 5 0 1 got\nframe 6 0 1 got\nframe 7 1 0 delta\nnode 0 subscriptions 1 retained 0\nnode 1 subscriptions 1 retained 0\ntaken 0 1 equal\n",
        err: "",
    },
];
