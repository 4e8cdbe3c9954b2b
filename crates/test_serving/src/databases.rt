//! A node whose rows are in a database, which is opened again.

use row_database::{Wary, open_rows};
use std::fs;
use trial_databases::{PACKETS, held};

#[test]
fn what_lasts_is_in_the_database(rt: HostRuntime) {
    let rows = open_rows(&rt, "n1.db", Wary).ok().expect(&rt, "a database");
    assert_eq!(rt; held(rt.alloc(), rows, &PACKETS), Some((1, 1)));
    let none: [&[u8]; 0] = [];
    let rows = open_rows(&rt, "n1.db", Wary).ok().expect(&rt, "a database");
    assert_eq!(rt; held(rt.alloc(), rows, &none), Some((1, 1)));
}

#[test]
fn a_new_database_has_small_pages(rt: HostRuntime) {
    for _ in 0..2 {
        let rows = open_rows(&rt, "small.db", Wary)
            .ok()
            .expect(&rt, "a database");
        drop(rows);
        let bytes = fs::read(&rt, "small.db").expect(&rt, "its file");
        // the size of a page, in SQLite's file format, 1.3.2
        assert!(rt; bytes.get(16..18) == Some([4, 0].as_slice()));
        assert!(rt; fs::metadata(&rt, "small.db-new").is_err());
    }
}
