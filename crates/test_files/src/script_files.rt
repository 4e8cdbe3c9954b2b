//! Scripts that `play` and `loopback` can read, and paths at which there is none.

use cli_files::read_script;
use std::fs;

#[test]
fn a_script_is_read_whole(rt: HostRuntime) {
    let script = "nodes 1\nstart 0 0\n";
    fs::write(&rt, "read.script", script).expect(&rt, "a file");
    let read = read_script(&rt, "read.script").ok().expect(&rt, "a script");
    assert!(rt; read.as_slice() == script.as_bytes());
    drop(read);
}

#[test]
fn a_path_without_a_script_is_told(rt: HostRuntime) {
    for (path, text) in [
        (
            "nowhere.script",
            "broker: script\nbroker: reading nowhere.script: no such file or folder\n",
        ),
        (
            "nowhere/read.script",
            "broker: script\nbroker: reading nowhere/read.script: no such file or folder\n",
        ),
        (".", "broker: script\nbroker: reading .: it is a folder\n"),
    ] {
        let ending = read_script(&rt, path).err().expect(&rt, "no script");
        let mut out: Vec<u8> = Vec::new(rt.alloc());
        let mut err: Vec<u8> = Vec::new(rt.alloc());
        let status = ending.tell(&mut out, &mut err);
        assert_eq!(rt; status, 3, "{path}");
        assert!(rt;
            out.is_empty() && err.as_slice() == text.as_bytes(),
            "{path}"
        );
        drop((ending, out, err));
    }
}
