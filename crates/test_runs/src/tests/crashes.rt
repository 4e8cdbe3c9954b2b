//! Crashes and restarts. Client `a` and its packets are those of the examples of sessions.

use super::Example;

pub const EXAMPLES: [Example; 7] = [
    Example {
        name: "a session goes on after a crash before its SUBSCRIBE, and after one that came after it",
        script: "nodes 2\nstart 0 0\nstart 1 0\nopen 1 1 0\nbytes 1 1 0 101300044d5154540502003c051100000064000161\ncrash before bytes 1 1 0 820700010000017400\nrestart 1\nstart 1 0\nopen 1 2 0\nbytes 1 2 0 101300044d5154540500003c051100000064000161\ncrash after bytes 1 2 0 820700010000017400\nrestart 1\nstart 1 0\nopen 1 3 0\nbytes 1 3 0 101300044d5154540500003c051100000064000161\nbytes 1 3 0 820700010000017400\n",
        status: 0,
        out: "sent 1 1 200e00000b2100642200102700100000\ncrash 1\nsent 1 2 200e01000b2100642200102700100000\ncrash 1\nsent 1 3 200e01000b2100642200102700100000\nsent 1 3 900400010000\nnode 0 subscriptions 0 retained 0\nnode 1 subscriptions 1 retained 0\ntaken 0 1 differ\n",
        err: "",
    },
    Example {
        name: "unfinished exchanges over a restart",
        script: "nodes 2\nstart 0 0\nstart 1 0\nopen 1 1 0\nbytes 1 1 0 101600044d5154540502003c081100000064210001000161\nbytes 1 1 0 820700010000017402\nopen 1 2 0\nbytes 1 2 0 100e00044d5154540502003c00000163\nbytes 1 2 0 340700017400010031\nbytes 1 2 0 340700017400020032\nbytes 1 2 0 340700017400030033\nbytes 1 1 0 50020001\nclose 1 1 10\nrestart 1\nstart 1 10\nopen 1 3 10\nbytes 1 3 10 101600044d5154540500003c081100000064210001000161\n",
        status: 0,
        out: "sent 1 1 200e00000b2100642200102700100000\nsent 1 1 900400010002\nsent 1 2 200e00000b2100642200102700100000\nsent 1 2 50020001\nsent 1 1 340700017400010031\nsent 1 2 50020002\nsent 1 2 50020003\nsent 1 1 62020001\nsent 1 3 200e01000b2100642200102700100000\nsent 1 3 62020001\nsent 1 3 340700017400020032\nnode 0 subscriptions 0 retained 0\nnode 1 subscriptions 1 retained 0\ntaken 0 1 differ\n",
        err: "",
    },
    Example {
        name: "a restart of the node of the stored run",
        script: "nodes 2\nstart 0 0\nstart 1 0\nopen 1 1 0\nbytes 1 1 0 100e00044d5154540502003c00000161\nbytes 1 1 0 3106000174006f6e\nbytes 1 1 0 820700010000017400\nrestart 1\n",
        status: 0,
        out: "sent 1 1 200e00000b2100642200102700100000\nsent 1 1 900400010000\nsent 1 1 3106000174006f6e\nnode 0 subscriptions 0 retained 0\nnode 1 subscriptions 1 retained 1\ntaken 0 1 differ\n",
        err: "",
    },
    Example {
        name: "and its start, with which the session ends whose connection was open",
        script: "nodes 2\nstart 0 0\nstart 1 0\nopen 1 1 0\nbytes 1 1 0 100e00044d5154540502003c00000161\nbytes 1 1 0 3106000174006f6e\nbytes 1 1 0 820700010000017400\nrestart 1\nstart 1 0\n",
        status: 0,
        out: "sent 1 1 200e00000b2100642200102700100000\nsent 1 1 900400010000\nsent 1 1 3106000174006f6e\nnode 0 subscriptions 0 retained 0\nnode 1 subscriptions 0 retained 1\ntaken 0 1 differ\n",
        err: "",
    },
    Example {
        name: "what was retained is there after a restart of a node that is up",
        script: "nodes 2\nstart 0 0\nstart 1 0\nopen 1 1 0\nbytes 1 1 0 100e00044d5154540502003c00000161\nbytes 1 1 0 3106000174006f6e\nrestart 1\nstart 1 0\nopen 1 2 0\nbytes 1 2 0 100e00044d5154540502003c00000161\nbytes 1 2 0 820700010000017400\n",
        status: 0,
        out: "sent 1 1 200e00000b2100642200102700100000\nsent 1 2 200e00000b2100642200102700100000\nsent 1 2 900400010000\nsent 1 2 3106000174006f6e\nnode 0 subscriptions 0 retained 0\nnode 1 subscriptions 1 retained 1\ntaken 0 1 differ\n",
        err: "",
    },
    Example {
        name: "identifiers go on after a restart",
        script: "nodes 1\nstart 0 0\nopen 0 1 0\nbytes 0 1 0 100d00044d5154540502003c000000\ncrash after open 0 2 0\nrestart 0\nstart 0 0\nopen 0 3 0\nbytes 0 3 0 100d00044d5154540502003c000000\n",
        status: 0,
        out: "sent 0 1 20190000161200086175746f2d302d312100642200102700100000\ncrash 0\nsent 0 3 20190000161200086175746f2d302d322100642200102700100000\nnode 0 subscriptions 0 retained 0\n",
        err: "",
    },
    Example {
        name: "crashes at the end of moments, and a node that is down",
        script: "nodes 2\nstart 0 0\nstart 1 0\ncrash before tick 0 4611686018427387904\ncrash before tick 0 0\ncrash after tick 0 0\ntick 0 0\ncrash after tick 1 4611686018427387904\nrestart 0\nstart 0 0\n",
        status: 0,
        out: "crash 0\ndown 0\ndown 0\ndown 0\nfault 1 NumbersAtEnd\nnode 0 subscriptions 0 retained 0\nnode 1 down\n",
        err: "",
    },
];
