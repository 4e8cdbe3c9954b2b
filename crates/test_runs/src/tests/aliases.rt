//! Topic aliases of clients. Client `a` is `100e00044d5154540502003c00000161`, and its home of two nodes is node 1.

use super::Example;

pub const EXAMPLES: [Example; 10] = [
    Example {
        name: "an alias that is set, and used",
        script: "nodes 2\nstart 0 0\nstart 1 0\nopen 1 1 0\nbytes 1 1 0 100e00044d5154540502003c00000161\nbytes 1 1 0 820700010000017400\nbytes 1 1 0 30080001740323000178\nbytes 1 1 0 300700000323000179\n",
        status: 0,
        out: "sent 1 1 200e00000b2100642200102700100000\nsent 1 1 900400010000\nsent 1 1 30050001740078\nsent 1 1 30050001740079\nnode 0 subscriptions 0 retained 0\nnode 1 subscriptions 1 retained 0\ntaken 0 1 differ\n",
        err: "",
    },
    Example {
        name: "an alias above the Topic Alias Maximum",
        script: "nodes 2\nstart 0 0\nstart 1 0\nopen 1 1 0\nbytes 1 1 0 100e00044d5154540502003c00000161\nbytes 1 1 0 30080001740323001178\n",
        status: 0,
        out: "sent 1 1 200e00000b2100642200102700100000\nsent 1 1 e00194\nclosed 1 1\nnode 0 subscriptions 0 retained 0\nnode 1 subscriptions 0 retained 0\ntaken 0 1 equal\n",
        err: "",
    },
    Example {
        name: "an alias of 0",
        script: "nodes 2\nstart 0 0\nstart 1 0\nopen 1 1 0\nbytes 1 1 0 100e00044d5154540502003c00000161\nbytes 1 1 0 30080001740323000078\n",
        status: 0,
        out: "sent 1 1 200e00000b2100642200102700100000\nsent 1 1 e00194\nclosed 1 1\nnode 0 subscriptions 0 retained 0\nnode 1 subscriptions 0 retained 0\ntaken 0 1 equal\n",
        err: "",
    },
    Example {
        name: "an alias that stands for no topic",
        script: "nodes 2\nstart 0 0\nstart 1 0\nopen 1 1 0\nbytes 1 1 0 100e00044d5154540502003c00000161\nbytes 1 1 0 300700000323000278\n",
        status: 0,
        out: "sent 1 1 200e00000b2100642200102700100000\nsent 1 1 e00182\nclosed 1 1\nnode 0 subscriptions 0 retained 0\nnode 1 subscriptions 0 retained 0\ntaken 0 1 equal\n",
        err: "",
    },
    Example {
        name: "a new connection, on which no alias is set",
        script: "nodes 2\nstart 0 0\nstart 1 0\nopen 1 1 0\nbytes 1 1 0 100e00044d5154540502003c00000161\nbytes 1 1 0 30080001740323000178\nclose 1 1 0\nopen 1 2 0\nbytes 1 2 0 100e00044d5154540502003c00000161\nbytes 1 2 0 300700000323000179\n",
        status: 0,
        out: "sent 1 1 200e00000b2100642200102700100000\nsent 1 2 200e00000b2100642200102700100000\nsent 1 2 e00182\nclosed 1 2\nnode 0 subscriptions 0 retained 0\nnode 1 subscriptions 0 retained 0\ntaken 0 1 equal\n",
        err: "",
    },
    Example {
        name: "a retained message under an alias, and its removal",
        script: "nodes 2\nstart 0 0\nstart 1 0\nopen 1 1 0\nbytes 1 1 0 100e00044d5154540502003c00000161\nbytes 1 1 0 30080001740323000178\nbytes 1 1 0 310700000323000179\nbytes 1 1 0 820700010000017400\nbytes 1 1 0 3106000003230001\n",
        status: 0,
        out: "sent 1 1 200e00000b2100642200102700100000\nsent 1 1 900400010000\nsent 1 1 31050001740079\nsent 1 1 300400017400\nnode 0 subscriptions 0 retained 0\nnode 1 subscriptions 1 retained 0\ntaken 0 1 differ\n",
        err: "",
    },
    Example {
        name: "sixteen aliases, of which one is replaced",
        script: "nodes 2\nstart 0 0\nstart 1 0\nopen 1 1 0\nbytes 1 1 0 100e00044d5154540502003c00000161\nbytes 1 1 0 820700010000012300\nbytes 1 1 0 300800016103230001783008000162032300027830080001630323000378300800016403230004783008000165032300057830080001660323000678300800016703230007783008000168032300087830080001690323000978300800016a0323000a78300800016b0323000b78300800016c0323000c78300800016d0323000d78300800016e0323000e78300800016f0323000f7830080001700323001078\nbytes 1 1 0 300700000323001079300700000323000f79300700000323000e79300700000323000d79300700000323000c79300700000323000b79300700000323000a79300700000323000979300700000323000879300700000323000779300700000323000679300700000323000579300700000323000479300700000323000379300700000323000279300700000323000179\nbytes 1 1 0 3008000171032300107a\nbytes 1 1 0 300700000323001077\nbytes 1 1 0 300700000323000f77\n",
        status: 0,
        out: "sent 1 1 200e00000b2100642200102700100000\nsent 1 1 900400010000\nsent 1 1 30050001610078\nsent 1 1 30050001620078\nsent 1 1 30050001630078\nsent 1 1 30050001640078\nsent 1 1 30050001650078\nsent 1 1 30050001660078\nsent 1 1 30050001670078\nsent 1 1 30050001680078\nsent 1 1 30050001690078\nsent 1 1 300500016a0078\nsent 1 1 300500016b0078\nsent 1 1 300500016c0078\nsent 1 1 300500016d0078\nsent 1 1 300500016e0078\nsent 1 1 300500016f0078\nsent 1 1 30050001700078\nsent 1 1 30050001700079\nsent 1 1 300500016f0079\nsent 1 1 300500016e0079\nsent 1 1 300500016d0079\nsent 1 1 300500016c0079\nsent 1 1 300500016b0079\nsent 1 1 300500016a0079\nsent 1 1 30050001690079\nsent 1 1 30050001680079\nsent 1 1 30050001670079\nsent 1 1 30050001660079\nsent 1 1 30050001650079\nsent 1 1 30050001640079\nsent 1 1 30050001630079\nsent 1 1 30050001620079\nsent 1 1 30050001610079\nsent 1 1 3005000171007a\nsent 1 1 30050001710077\nsent 1 1 300500016f0077\nnode 0 subscriptions 0 retained 0\nnode 1 subscriptions 1 retained 0\ntaken 0 1 differ\n",
        err: "",
    },
    Example {
        name: "an alias that a repeat sets, and one that a PUBLISH sets whose identifier is in use",
        script: "nodes 2\nstart 0 0\nstart 1 0\nopen 1 1 0\nbytes 1 1 0 100e00044d5154540502003c00000161\nbytes 1 1 0 820700010000017400\nbytes 1 1 0 340700017600070078\nbytes 1 1 0 340a00017400070323000178\nbytes 1 1 0 320a00017400070323000278\nbytes 1 1 0 300700000323000179\nbytes 1 1 0 300700000323000279\n",
        status: 0,
        out: "sent 1 1 200e00000b2100642200102700100000\nsent 1 1 900400010000\nsent 1 1 50020007\nsent 1 1 50020007\nsent 1 1 4003000791\nsent 1 1 30050001740079\nsent 1 1 30050001740079\nnode 0 subscriptions 0 retained 0\nnode 1 subscriptions 1 retained 0\ntaken 0 1 differ\n",
        err: "",
    },
    Example {
        name: "a topic with a wildcard sets no alias",
        script: "nodes 2\nstart 0 0\nstart 1 0\nopen 1 1 0\nbytes 1 1 0 100e00044d5154540502003c00000161\nbytes 1 1 0 300800012b0323000178300700000323000179\n",
        status: 0,
        out: "sent 1 1 200e00000b2100642200102700100000\nsent 1 1 e00190\nclosed 1 1\nnode 0 subscriptions 0 retained 0\nnode 1 subscriptions 0 retained 0\ntaken 0 1 equal\n",
        err: "",
    },
    Example {
        name: "an alias above the maximum comes before a Subscription Identifier",
        script: "nodes 2\nstart 0 0\nstart 1 0\nopen 1 1 0\nbytes 1 1 0 100e00044d5154540502003c00000161\nbytes 1 1 0 300a000174050b0123001178\n",
        status: 0,
        out: "sent 1 1 200e00000b2100642200102700100000\nsent 1 1 e00194\nclosed 1 1\nnode 0 subscriptions 0 retained 0\nnode 1 subscriptions 0 retained 0\ntaken 0 1 equal\n",
        err: "",
    },
];
