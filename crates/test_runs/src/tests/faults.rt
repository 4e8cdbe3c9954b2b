//! Faults of a client's stream, and how each is answered. Client `a` is `100e00044d5154540502003c00000161`.

use super::Example;

pub const EXAMPLES: [Example; 4] = [
    Example {
        name: "first packets: version 3.1.1, no body, wrong flags, too large, no CONNECT, no packet type",
        script: "nodes 1\nstart 0 0\nopen 0 1 0\nbytes 0 1 0 100d00044d5154540402003c000161\nopen 0 2 0\nbytes 0 2 0 1000\nopen 0 3 0\nbytes 0 3 0 1100\nopen 0 4 0\nbytes 0 4 0 10fdff3f\nopen 0 5 0\nbytes 0 5 0 c000\nopen 0 6 0\nbytes 0 6 0 0000\n",
        status: 0,
        out: "sent 0 1 2003008400\nclosed 0 1\nsent 0 2 2003008100\nclosed 0 2\nsent 0 3 2003008100\nclosed 0 3\nsent 0 4 2003009500\nclosed 0 4\nclosed 0 5\nclosed 0 6\nnode 0 subscriptions 0 retained 0\n",
        err: "",
    },
    Example {
        name: "first packets: a property twice, a wrong property, reserved flag, Will QoS without Will, Receive Maximum 0, user name and password",
        script: "nodes 1\nstart 0 0\nopen 0 1 0\nbytes 0 1 0 101400044d5154540502003c06210001210001000161\nopen 0 2 0\nbytes 0 2 0 101000044d5154540502003c020100000161\nopen 0 3 0\nbytes 0 3 0 100e00044d5154540503003c00000161\nopen 0 4 0\nbytes 0 4 0 100e00044d515454050a003c00000161\nopen 0 5 0\nbytes 0 5 0 101100044d5154540502003c03210000000161\nopen 0 6 0\nbytes 0 6 0 101400044d51545405c2003c00000161000175000170\n",
        status: 0,
        out: "sent 0 1 2003008200\nclosed 0 1\nsent 0 2 2003008100\nclosed 0 2\nsent 0 3 2003008100\nclosed 0 3\nsent 0 4 2003008100\nclosed 0 4\nsent 0 5 2003008200\nclosed 0 5\nsent 0 6 200e00000b2100642200102700100000\nnode 0 subscriptions 0 retained 0\n",
        err: "",
    },
    Example {
        name: "later packets: QoS 3, five-byte length, short body, bytes left over, identifier 0, no filter, a second CONNECT, PINGREQ and DISCONNECT, an alias above 16, a wildcard in a topic",
        script: "nodes 1\nstart 0 0\nopen 0 1 0\nbytes 0 1 0 100e00044d5154540502003c000001613600\nopen 0 2 0\nbytes 0 2 0 100e00044d5154540502003c0000016230ffffffff\nopen 0 3 0\nbytes 0 3 0 100e00044d5154540502003c000001633002000a\nopen 0 4 0\nbytes 0 4 0 100e00044d5154540502003c00000164c00100\nopen 0 5 0\nbytes 0 5 0 100e00044d5154540502003c00000165820700000000017400\nopen 0 6 0\nbytes 0 6 0 100e00044d5154540502003c000001668203000100\nopen 0 7 0\nbytes 0 7 0 100e00044d5154540502003c00000167100e00044d5154540502003c00000168\nopen 0 8 0\nbytes 0 8 0 100e00044d5154540502003c00000168c000e000\nopen 0 9 0\nbytes 0 9 0 100e00044d5154540502003c000001693008000174032300116f\nopen 0 10 0\nbytes 0 10 0 100e00044d5154540502003c0000016a300400012b00\n",
        status: 0,
        out: "sent 0 1 200e00000b2100642200102700100000\nsent 0 1 e00181\nclosed 0 1\nsent 0 2 200e00000b2100642200102700100000\nsent 0 2 e00181\nclosed 0 2\nsent 0 3 200e00000b2100642200102700100000\nsent 0 3 e00181\nclosed 0 3\nsent 0 4 200e00000b2100642200102700100000\nsent 0 4 e00181\nclosed 0 4\nsent 0 5 200e00000b2100642200102700100000\nsent 0 5 e00182\nclosed 0 5\nsent 0 6 200e00000b2100642200102700100000\nsent 0 6 e00182\nclosed 0 6\nsent 0 7 200e00000b2100642200102700100000\nsent 0 7 e00182\nclosed 0 7\nsent 0 8 200e00000b2100642200102700100000\nsent 0 8 d000\nclosed 0 8\nsent 0 9 200e00000b2100642200102700100000\nsent 0 9 e00194\nclosed 0 9\nsent 0 10 200e00000b2100642200102700100000\nsent 0 10 e00190\nclosed 0 10\nnode 0 subscriptions 0 retained 0\n",
        err: "",
    },
    Example {
        name: "later packets: a reserved bit of a subscription's options by itself, a packet that is too large",
        script: "nodes 1\nstart 0 0\nopen 0 1 0\nbytes 0 1 0 100e00044d5154540502003c00000161\nbytes 0 1 0 820700010000017480\nopen 0 2 0\nbytes 0 2 0 100e00044d5154540502003c00000162\nbytes 0 2 0 30fdff3f\n",
        status: 0,
        out: "sent 0 1 200e00000b2100642200102700100000\nsent 0 1 e00181\nclosed 0 1\nsent 0 2 200e00000b2100642200102700100000\nsent 0 2 e00195\nclosed 0 2\nnode 0 subscriptions 0 retained 0\n",
        err: "",
    },
];
