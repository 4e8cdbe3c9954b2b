//! Files of users and of permissions with which a node can start, and those with which it can't; lines of users that the program prints.

use cli_files::{print_user_line, random_salt, read_access};
use door_users::{Entry, Users};
use std::{fs, str};

/// Made by `mosquitto_passwd -b` of Mosquitto 2.0.11 for `bob` with `x`.
const BOB: &str =
    "bob:$7$101$gywCRAZx7PEURrDH$xgUk25cPdfSDmwgjuqurs4T3oDcxxk1Xpj+kVcGLnb+He4K8qdT0/wsxa+/VghUt/HwCMUzhv/xupcOe8Ja9yA==\n";

/// Whether a node starts with these files.
fn starts(
    rt: &HostRuntime,
    users: Option<&str>,
    permissions: Option<&str>,
    anonymous: bool,
) -> bool {
    match read_access(rt, users, permissions, anonymous) {
        Ok(access) => access.is_some() == users.is_some(),
        Err(_) => false,
    }
}

/// Whether a node doesn't start, and this is told.
fn tells(
    rt: &HostRuntime,
    users: Option<&str>,
    permissions: Option<&str>,
    anonymous: bool,
    text: &str,
) -> bool {
    let Err(stop) = read_access(rt, users, permissions, anonymous) else {
        return false;
    };
    let mut out: Vec<u8> = Vec::new(rt.alloc());
    let mut err: Vec<u8> = Vec::new(rt.alloc());
    let status = stop.tell(&mut out, &mut err);
    status == 2 && out.is_empty() && err.as_slice() == text.as_bytes()
}

#[test]
fn files_of_users_are_read(rt: HostRuntime) {
    fs::write(&rt, "users", BOB).expect(&rt, "a file");
    fs::write(&rt, "rules", "user bob\ntopic read a\n").expect(&rt, "a file");
    assert!(rt; starts(&rt, None, None, false));
    assert!(rt; starts(&rt, Some("users"), None, false));
    assert!(rt; starts(&rt, Some("users"), None, true));
    assert!(rt; starts(&rt, Some("users"), Some("rules"), false));
}

#[test]
fn a_flaw_of_these_files_is_told_by_its_line(rt: HostRuntime) {
    fs::write(&rt, "right", BOB).expect(&rt, "a file");
    fs::write(&rt, "wrong", "# users\nbob\n").expect(&rt, "a file");
    fs::write(&rt, "bytes", b"\xff").expect(&rt, "a file");
    fs::write(&rt, "rules", "user bob\ntopic reads a\n").expect(&rt, "a file");
    let right = Some("right");
    assert!(rt;
        tells(
            &rt,
            Some("wrong"),
            None,
            false,
            "broker: wrong: line 2: after the user name and a colon does not stand $7$\n",
        )
    );
    assert!(rt;
        tells(
            &rt,
            right,
            Some("rules"),
            false,
            "broker: rules: line 2: before the filter stands none of read, write, readwrite and deny\n",
        )
    );
    assert!(rt;
        tells(
            &rt,
            right,
            Some("bytes"),
            true,
            "broker: bytes: it is not UTF-8\n"
        )
    );
    assert!(rt;
        tells(
            &rt,
            right,
            Some("nowhere"),
            true,
            "broker: nowhere: no such file or folder\n"
        )
    );
    assert!(rt; tells(&rt, Some("."), None, true, "broker: .: it is a folder\n"));
}

#[test]
fn rules_are_for_users(rt: HostRuntime) {
    assert!(rt;
        tells(
            &rt,
            None,
            Some("rules"),
            false,
            "broker: --permissions: it is for users: give --users too\n"
        )
    );
    assert!(rt;
        tells(
            &rt,
            None,
            None,
            true,
            "broker: --anonymous: it is for users: give --users too\n"
        )
    );
}

#[test]
fn prints_lines_that_let_in(rt: HostRuntime) {
    let alloc = rt.alloc();
    let mut text: Vec<u8> = Vec::new(alloc);
    let salt = random_salt(&rt).ok().expect(&rt, "a salt");
    let other = random_salt(&rt).ok().expect(&rt, "another salt");
    assert!(rt; salt != other);
    print_user_line(alloc, "dora", b"secret", &salt, &mut text)
        .ok()
        .expect(&rt, "a line");
    print_user_line(alloc, "emil", b"secret", &other, &mut text)
        .ok()
        .expect(&rt, "a line");
    let lines = str::from_utf8(&text).expect(&rt, "text");
    let users = Users::parse(alloc, lines).expect(&rt, "users");
    assert_eq!(&rt; users.admits("dora", b"secret"), Entry::Admitted);
    assert_eq!(&rt; users.admits("emil", b"secret"), Entry::Admitted);
    assert_eq!(&rt; users.admits("dora", b"Secret"), Entry::WrongPassword);
    drop(users);
    let refused = print_user_line(alloc, "d:ora", b"secret", &salt, &mut text);
    assert!(rt; refused.is_err());
    drop(refused);
}
