//! Two nodes, one retained message; and scripts that can't be run.

use super::Example;

pub const EXAMPLES: [Example; 12] = [
    Example {
        name: "stored run",
        script: "nodes 2\nstart 0 0\nstart 1 0\nopen 1 1 0\nbytes 1 1 0 100e00044d5154540502003c00000161\nbytes 1 1 0 3106000174006f6e\nbytes 1 1 0 820700010000017400\n",
        status: 0,
        out: "sent 1 1 200e00000b2100642200102700100000\nsent 1 1 900400010000\nsent 1 1 3106000174006f6e\nnode 0 subscriptions 0 retained 0\nnode 1 subscriptions 1 retained 1\ntaken 0 1 differ\n",
        err: "",
    },
    Example {
        name: "accepted first packet",
        script: "nodes 2\nstart 1 0\nopen 1 1 0\nbytes 1 1 0 100e00044d5154540502003c00000161",
        status: 0,
        out: "sent 1 1 200e00000b2100642200102700100000\nnode 0 subscriptions 0 retained 0\nnode 1 subscriptions 0 retained 0\ntaken 0 1 equal\n",
        err: "",
    },
    Example {
        name: "another first packet",
        script: "nodes 1\nstart 0 0\nopen 0 1 0\nbytes 0 1 0 820700010000017400\nbytes 0 1 0 820700010000017400\n",
        status: 0,
        out: "closed 0 1\nnode 0 subscriptions 0 retained 0\n",
        err: "",
    },
    Example {
        name: "a client that is here already: Session taken over",
        script: "nodes 1\nstart 0 0\nopen 0 1 0\nbytes 0 1 0 100e00044d5154540502003c00000161\nopen 0 2 0\nbytes 0 2 0 100e00044d5154540502003c00000161\n",
        status: 0,
        out: "sent 0 1 200e00000b2100642200102700100000\nsent 0 1 e0018e\nclosed 0 1\nsent 0 2 200e00000b2100642200102700100000\nnode 0 subscriptions 0 retained 0\n",
        err: "",
    },
    Example {
        name: "a tombstone over two nodes",
        script: "nodes 2\nstart 0 0\nstart 1 0\nopen 0 1 0\nbytes 0 1 0 100e00044d5154540502003c00000162\nopen 1 1 0\nbytes 1 1 0 100e00044d5154540502003c00000161\nbytes 0 1 0 3106000174006f6e\nbytes 1 1 0 310400017400\nship 0 1 0\nship 1 0 0\ndeliver 1 0\ndeliver 2 0\nbytes 0 1 0 820700010000017400\nbytes 1 1 0 820700010000017400\n",
        status: 0,
        out: "sent 0 1 200e00000b2100642200102700100000\nsent 1 1 200e00000b2100642200102700100000\nframe 1 0 1 delta\nframe 2 1 0 delta\nframe 3 1 0 know\nframe 4 0 1 know\nsent 0 1 900400010000\nsent 1 1 900400010000\nnode 0 subscriptions 1 retained 0\nnode 1 subscriptions 1 retained 0\ntaken 0 1 differ\n",
        err: "",
    },
    Example {
        name: "retained merge",
        script: "nodes 2\nstart 0 0\nstart 1 0\nopen 0 1 0\nbytes 0 1 0 100e00044d5154540502003c00000162\nopen 1 1 0\nbytes 1 1 0 100e00044d5154540502003c00000161\nbytes 0 1 0 3106000174006f6e\nbytes 1 1 0 3106000174006e6f\nship 0 1 0\nship 1 0 0\ndeliver 1 0\ndeliver 2 0\nbytes 0 1 0 820700010000017400\nbytes 1 1 0 820700010000017400\n",
        status: 0,
        out: "sent 0 1 200e00000b2100642200102700100000\nsent 1 1 200e00000b2100642200102700100000\nframe 1 0 1 delta\nframe 2 1 0 delta\nframe 3 1 0 know\nframe 4 0 1 know\nsent 0 1 900400010000\nsent 0 1 3106000174006e6f\nsent 1 1 900400010000\nsent 1 1 3106000174006e6f\nnode 0 subscriptions 1 retained 1\nnode 1 subscriptions 1 retained 1\ntaken 0 1 differ\n",
        err: "",
    },
    Example {
        name: "retained merge, the other order",
        script: "nodes 2\nstart 0 0\nstart 1 0\nopen 0 1 0\nbytes 0 1 0 100e00044d5154540502003c00000162\nopen 1 1 0\nbytes 1 1 0 100e00044d5154540502003c00000161\nbytes 0 1 0 3106000174006f6e\nbytes 1 1 0 3106000174006e6f\nship 0 1 0\nship 1 0 0\ndeliver 2 0\ndeliver 1 0\nbytes 0 1 0 820700010000017400\nbytes 1 1 0 820700010000017400\n",
        status: 0,
        out: "sent 0 1 200e00000b2100642200102700100000\nsent 1 1 200e00000b2100642200102700100000\nframe 1 0 1 delta\nframe 2 1 0 delta\nframe 3 0 1 know\nframe 4 1 0 know\nsent 0 1 900400010000\nsent 0 1 3106000174006e6f\nsent 1 1 900400010000\nsent 1 1 3106000174006e6f\nnode 0 subscriptions 1 retained 1\nnode 1 subscriptions 1 retained 1\ntaken 0 1 differ\n",
        err: "",
    },
    Example {
        name: "numbers at their end",
        script: "nodes 2\nstart 0 0\nopen 0 1 4611686018427387904\nopen 0 1 1\n",
        status: 0,
        out: "fault 0 NumbersAtEnd\ndown 0\nnode 0 down\nnode 1 subscriptions 0 retained 0\n",
        err: "",
    },
    Example {
        name: "no such number of nodes",
        script: "nodes 0",
        status: 3,
        out: "",
        err: "broker: script line 1\n",
    },
    Example {
        name: "a bad line",
        script: "nodes 2\nstart 0 0\nstart 2 0\n",
        status: 3,
        out: "",
        err: "broker: script line 3\n",
    },
    Example {
        name: "a byte above 127",
        script: "nodes 1\n# é\n",
        status: 3,
        out: "",
        err: "broker: script\n",
    },
    Example {
        name: "unknown frame",
        script: "nodes 2\ndeliver 9 0\n",
        status: 1,
        out: "",
        err: "broker: run: UnknownFrame\n",
    },
];
