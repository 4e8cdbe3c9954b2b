//! Subscriptions that end, merge and are limited; messages that expire.

use super::Example;

pub const EXAMPLES: [Example; 9] = [
    Example {
        name: "unsubscribed, and frames in the other order",
        script: "nodes 2\nstart 0 0\nstart 1 0\nopen 1 1 0\nbytes 1 1 0 100e00044d5154540502003c00000161\nbytes 1 1 0 820700010000017400\nship 1 0 0\nbytes 1 1 0 a206000200000174\nship 1 0 0\ndeliver 2 0\ndeliver 1 0\ndeliver 1 0\n",
        status: 0,
        out: "sent 1 1 200e00000b2100642200102700100000\nsent 1 1 900400010000\nframe 1 1 0 delta\nsent 1 1 b00400020000\nframe 2 1 0 delta\nframe 3 0 1 know\nframe 4 0 1 know\nframe 5 0 1 know\nnode 0 subscriptions 0 retained 0\nnode 1 subscriptions 0 retained 0\ntaken 0 1 equal\n",
        err: "",
    },
    Example {
        name: "unsubscribed twice",
        script: "nodes 1\nstart 0 0\nopen 0 1 0\nbytes 0 1 0 100e00044d5154540502003c00000161\nbytes 0 1 0 820700010000017400\nbytes 0 1 0 a206000200000174\nbytes 0 1 0 a206000200000174\n",
        status: 0,
        out: "sent 0 1 200e00000b2100642200102700100000\nsent 0 1 900400010000\nsent 0 1 b00400020000\nsent 0 1 b00400020011\nnode 0 subscriptions 0 retained 0\n",
        err: "",
    },
    Example {
        name: "evicted, and subscribed again meanwhile",
        script: "nodes 2\nstart 0 0\nstart 1 0\nopen 1 1 0\nbytes 1 1 0 100e00044d5154540502003c00000161\nbytes 1 1 0 820700010000017400\nship 1 0 0\ndeliver 1 0\nevict 0 a 0\nbytes 1 1 0 820700020000017400\nship 1 0 0\nship 0 1 0\ndeliver 3 0\ndeliver 4 0\n",
        status: 0,
        out: "sent 1 1 200e00000b2100642200102700100000\nsent 1 1 900400010000\nframe 1 1 0 delta\nframe 2 0 1 know\nsent 1 1 900400020000\nframe 3 1 0 delta\nframe 4 0 1 delta\nframe 5 0 1 know\nframe 6 1 0 know\nnode 0 subscriptions 1 retained 0\nnode 1 subscriptions 1 retained 0\ntaken 0 1 equal\n",
        err: "",
    },
    Example {
        name: "a message that expires",
        script: "nodes 1\nstart 0 0\nopen 0 1 0\nbytes 0 1 0 100e00044d5154540502003c00000161\nbytes 0 1 1000 310b0001740502000000056f6e\nbytes 0 1 5999 820700010000017400\nbytes 0 1 6000 820700020000017400\n",
        status: 0,
        out: "sent 0 1 200e00000b2100642200102700100000\nsent 0 1 900400010000\nsent 0 1 310b0001740502000000016f6e\nsent 0 1 900400020000\nnode 0 subscriptions 1 retained 1\n",
        err: "",
    },
    Example {
        name: "a text that is no filter, and one that is",
        script: "nodes 1\nstart 0 0\nopen 0 1 0\nbytes 0 1 0 100e00044d5154540502003c00000161\nbytes 0 1 0 821300030000092473686172652f2f780000017401\n",
        status: 0,
        out: "sent 0 1 200e00000b2100642200102700100000\nsent 0 1 90050003008f01\nnode 0 subscriptions 1 retained 0\n",
        err: "",
    },
    Example {
        name: "No Local on a shared filter",
        script: "nodes 1\nstart 0 0\nopen 0 1 0\nbytes 0 1 0 100e00044d5154540502003c00000161\nbytes 0 1 0 8210000100000a2473686172652f672f7404\n",
        status: 0,
        out: "sent 0 1 200e00000b2100642200102700100000\nsent 0 1 e00182\nclosed 0 1\nnode 0 subscriptions 0 retained 0\n",
        err: "",
    },
    Example {
        name: "Retain Handling 2, then 1 for a new filter, then 1 for the same filter",
        script: "nodes 1\nstart 0 0\nopen 0 1 0\nbytes 0 1 0 100e00044d5154540502003c00000161\nbytes 0 1 0 3106000174006f6e\nbytes 0 1 0 820700010000017420\nbytes 0 1 0 820700020000012b10\nbytes 0 1 0 820700030000012b10\n",
        status: 0,
        out: "sent 0 1 200e00000b2100642200102700100000\nsent 0 1 900400010000\nsent 0 1 900400020000\nsent 0 1 3106000174006f6e\nsent 0 1 900400030000\nnode 0 subscriptions 2 retained 1\n",
        err: "",
    },
    Example {
        name: "a subscription identifier, and no retained message for a shared filter",
        script: "nodes 1\nstart 0 0\nopen 0 1 0\nbytes 0 1 0 100e00044d5154540502003c00000161\nbytes 0 1 0 3106000174006f6e\nbytes 0 1 0 82090001020b0700017400\nbytes 0 1 0 8210000200000a2473686172652f672f7400\n",
        status: 0,
        out: "sent 0 1 200e00000b2100642200102700100000\nsent 0 1 900400010000\nsent 0 1 3108000174020b076f6e\nsent 0 1 900400020000\nnode 0 subscriptions 2 retained 1\n",
        err: "",
    },
    Example {
        name: "equal filters of one SUBSCRIBE, of which the last one stands",
        script: "nodes 1\nstart 0 0\nopen 0 1 0\nbytes 0 1 0 100e00044d5154540502003c00000161\nbytes 0 1 0 820d0001020b070001740100017400\nbytes 0 1 0 32080001740001006f6e\n",
        status: 0,
        out: "sent 0 1 200e00000b2100642200102700100000\nsent 0 1 90050001000100\nsent 0 1 40020001\nsent 0 1 3008000174020b076f6e\nnode 0 subscriptions 1 retained 0\n",
        err: "",
    },
];
