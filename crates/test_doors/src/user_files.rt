//! Files of users that `mosquitto_passwd` made, lines that are made here, and lines with a flaw.

use door_users::{Entry, FileFault, LineFlaw, Users, read_permissions, user_line};

/// Made by `mosquitto_passwd -b` of Mosquitto 2.0.11 for `alice` with `pass word`, and for `bob` with `x`.
const MADE: &str =
    "alice:$7$101$tRAb0c6pUOAldhu2$XGI23gpjZeZ0BmctnmJBsPe+bN/rVllXKlHfH6HXUb05ve1imseVSIprFdMbVpriD4Tkj/bQ1XAWMqzL8XA/cw==\nbob:$7$101$gywCRAZx7PEURrDH$xgUk25cPdfSDmwgjuqurs4T3oDcxxk1Xpj+kVcGLnb+He4K8qdT0/wsxa+/VghUt/HwCMUzhv/xupcOe8Ja9yA==\n";

#[test]
fn reads_files_of_mosquitto(rt: HostRuntime) {
    let alloc = rt.alloc();
    let users = Users::parse(alloc, MADE).expect(&rt, "users");
    assert_eq!(&rt; users.admits("alice", b"pass word"), Entry::Admitted);
    assert_eq!(&rt; users.admits("alice", b"pass wore"), Entry::WrongPassword);
    assert_eq!(&rt; users.admits("bob", b"x"), Entry::Admitted);
    assert_eq!(&rt; users.admits("bob", b"pass word"), Entry::WrongPassword);
    assert_eq!(&rt; users.admits("carol", b"x"), Entry::WrongPassword);
}

#[test]
fn reads_lines_that_it_makes(rt: HostRuntime) {
    let alloc = rt.alloc();
    let line = user_line(alloc, "dora", b"secret", b"twelve bytes", 3).expect(&rt, "memory");
    let users = Users::parse(alloc, line.as_str()).expect(&rt, "users");
    assert_eq!(&rt; users.admits("dora", b"secret"), Entry::Admitted);
    assert_eq!(&rt; users.admits("dora", b"Secret"), Entry::WrongPassword);
}

#[test]
fn names_the_first_flaw_of_users(rt: HostRuntime) {
    let alloc = rt.alloc();
    let lines = [
        (":$7$101$tRAb0c6pUOAldhu2$AAAA", LineFlaw::NoName),
        ("eve", LineFlaw::NotPbkdf2),
        ("eve:$6$clQ4Ocu312S0qWgl$Cv2w", LineFlaw::NotPbkdf2),
        ("eve:$7$0$tRAb0c6pUOAldhu2$AAAA", LineFlaw::BadIterations),
        ("eve:$7$0101$tRAb0c6pUOAldhu2$AAAA", LineFlaw::BadIterations),
        (
            "eve:$7$100001$tRAb0c6pUOAldhu2$AAAA",
            LineFlaw::BadIterations,
        ),
        ("eve:$7$$tRAb0c6pUOAldhu2$AAAA", LineFlaw::BadIterations),
        ("eve:$7$101$tRAb0c6pUOAldhu$AAAA", LineFlaw::BadSalt),
        ("eve:$7$101$tRAb0c6pUOAldhu2$AAAA", LineFlaw::BadHash),
        ("eve:$7$101$tRAb0c6pUOAldhu2", LineFlaw::BadHash),
        (
            "bob:$7$101$gywCRAZx7PEURrDH$xgUk25cPdfSDmwgjuqurs4T3oDcxxk1Xpj+kVcGLnb+He4K8qdT0/wsxa+/VghUt/HwCMUzhv/xupcOe8Ja9yA==",
            LineFlaw::NameTwice,
        ),
    ];
    for (line, flaw) in lines {
        let mut text = String::from_str(alloc, "# users\n\n").expect(&rt, "memory");
        text.push_str(MADE).expect(&rt, "memory");
        text.push_str(line).expect(&rt, "memory");
        let fault = Users::parse(alloc, text.as_str()).err();
        assert_eq!(&rt; fault, Some(FileFault::Line(5, flaw)));
    }
}

#[test]
fn names_the_first_flaw_of_rules(rt: HostRuntime) {
    let alloc = rt.alloc();
    let lines = [
        ("users", LineFlaw::UnknownWord),
        ("user", LineFlaw::NoName),
        ("topic", LineFlaw::NoFilter),
        ("topic reads a", LineFlaw::BadAccess),
        ("topic read a/#/b", LineFlaw::BadFilter),
        ("topic a+", LineFlaw::BadFilter),
        ("topic read $share/g/a", LineFlaw::BadFilter),
        ("pattern read a/x%u", LineFlaw::BadPlace),
        ("pattern deny 100%/a", LineFlaw::BadPlace),
        ("client", LineFlaw::NoIdentifier),
        ("client a*b", LineFlaw::BadIdentifier),
        ("client %u*", LineFlaw::NoUser),
    ];
    for (line, flaw) in lines {
        let mut text = String::from_str(alloc, "topic read a\n").expect(&rt, "memory");
        text.push_str(line).expect(&rt, "memory");
        text.push_str("\nuser ann\nnothing\n").expect(&rt, "memory");
        let fault = read_permissions(alloc, text.as_str()).err();
        assert_eq!(&rt; fault, Some(FileFault::Line(2, flaw)));
    }
}

#[test]
fn tells_what_is_wrong(rt: HostRuntime) {
    let alloc = rt.alloc();
    let fault = FileFault::Line(7, LineFlaw::BadSalt);
    let text = format!(in alloc; "{fault}").expect(&rt, "memory");
    assert!(rt; text.as_str() == "line 7: the salt is not base64");
}
