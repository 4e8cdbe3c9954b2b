//! Worked examples: how the program ends, its exit status, and what it writes where.

use broker_script::ScriptFault;
use cli_stops::{RunFault, Stop};
use home_table::TableFault;

#[test]
fn ends_with_a_status_and_a_text(rt: HostRuntime) {
    let alloc = rt.alloc();
    let faults = [
        (
            Stop::Help(String::from_str(alloc, "Usage: broker").expect(&rt, "memory")),
            0,
            "Usage: broker\n",
            "",
        ),
        (
            Stop::CommandLine(String::from_str(alloc, "error").expect(&rt, "memory")),
            2,
            "",
            "error\n",
        ),
        (Stop::from(ScriptFault::NotText), 3, "", "broker: script\n"),
        (
            Stop::from(ScriptFault::Line(12)),
            3,
            "",
            "broker: script line 12\n",
        ),
        (
            Stop::from(ScriptFault::NoMemory),
            1,
            "",
            "broker: run: NoMemory\n",
        ),
        (
            Stop::from(TableFault::Syntax),
            3,
            "",
            "broker: configuration: Syntax\n",
        ),
        (
            Stop::from(TableFault::NoNodes),
            3,
            "",
            "broker: configuration: NoNodes\n",
        ),
        (
            Stop::from(TableFault::TwiceNamed),
            3,
            "",
            "broker: configuration: TwiceNamed\n",
        ),
        (
            Stop::from(TableFault::UnknownNode),
            3,
            "",
            "broker: configuration: UnknownNode\n",
        ),
        (
            Stop::from(TableFault::NoMemory),
            3,
            "",
            "broker: configuration: NoMemory\n",
        ),
        (
            Stop::from(RunFault::from(TableFault::NoMemory)),
            1,
            "",
            "broker: run: NoMemory\n",
        ),
        (
            Stop::from(RunFault::from(TableFault::Syntax)),
            1,
            "",
            "broker: run: BadTables\n",
        ),
        (
            Stop::from(RunFault::UnknownNode),
            1,
            "",
            "broker: run: UnknownNode\n",
        ),
        (
            Stop::from(RunFault::UnknownFrame),
            1,
            "",
            "broker: run: UnknownFrame\n",
        ),
        (Stop::from(RunFault::Spent), 1, "", "broker: run: Spent\n"),
        (Stop::from(RunFault::Rows), 1, "", "broker: run: Rows\n"),
        (
            Stop::from(RunFault::OlderTable(5)),
            1,
            "",
            "broker: run: OlderTable\n",
        ),
        (
            Stop::from(RunFault::NumbersAtEnd),
            1,
            "",
            "broker: run: NumbersAtEnd\n",
        ),
        (
            Stop::from(RunFault::Stopped),
            1,
            "",
            "broker: run: Stopped\n",
        ),
        (Stop::from(RunFault::Turns), 1, "", "broker: run: Turns\n"),
        (Stop::from(RunFault::Socket), 1, "", "broker: run: Socket\n"),
        (Stop::from(RunFault::Output), 1, "", "broker: run: Output\n"),
    ];
    for (stop, status, out, err) in &faults {
        let mut written: Vec<u8> = Vec::new(alloc);
        let mut told: Vec<u8> = Vec::new(alloc);
        let found = stop.tell(&mut written, &mut told);
        assert_eq!(rt; found, *status);
        assert_eq!(rt; written.as_slice(), out.as_bytes());
        assert_eq!(rt; told.as_slice(), err.as_bytes());
    }
}
