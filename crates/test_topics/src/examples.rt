//! Examples of both maps.

use crate::values::{filter_of, name_of, tell};
use filter_trie::{FilterTrie, TopicTrie};
use std::alloc::Global;
use std::process::Abort;

fn filters(rt: &impl Abort, alloc: Global, texts: &[&str]) -> FilterTrie<usize> {
    let mut trie = FilterTrie::new(alloc);
    for (i, text) in texts.iter().enumerate() {
        let put = trie.insert(filter_of(rt, alloc, *text), i);
        assert!(rt; put.ok() == Some(None));
    }
    trie
}

// The filters that match a name, in turn.
fn matching(rt: &impl Abort, alloc: Global, trie: &FilterTrie<usize>, text: &str) -> String {
    let name = name_of(rt, alloc, text);
    let mut told = String::new(alloc);
    for (filter, _) in trie.matching(&name).expect(rt, "memory") {
        tell(rt, &mut told, filter.as_str());
    }
    told
}

// What stands at `#` before and after it is put in anew with 9, and after it is removed.
fn put_anew(rt: &impl Abort, alloc: Global, trie: &mut FilterTrie<usize>) -> [Option<usize>; 4] {
    let hash = filter_of(rt, alloc, "#");
    let before = trie.get(&hash).copied();
    let put = trie.insert(filter_of(rt, alloc, "#"), 9).ok();
    let removed = trie.remove(&hash);
    let after = trie.get(&hash).copied();
    [before, put.expect(rt, "memory"), removed, after]
}

#[test]
fn filters_that_match_a_name(rt: HostRuntime) {
    let mut trie = filters(&rt, rt.alloc(), &["b", "a/+", "#", "+/x", "a/#"]);
    for (text, found) in [
        ("a", "# a/# "),
        ("a/x", "# +/x a/# a/+ "),
        ("$a/x", ""),
        ("b", "# b "),
        ("/x", "# +/x "),
    ] {
        let told = matching(&rt, rt.alloc(), &trie, text);
        assert_eq!(rt; told.as_str(), found, "of {text}");
    }
    let found = put_anew(&rt, rt.alloc(), &mut trie);
    assert_eq!(rt; found, [Some(2), Some(2), Some(9), None]);
    drop(trie);
}

fn names(rt: &impl Abort, alloc: Global, texts: &[&str]) -> TopicTrie<usize> {
    let mut trie = TopicTrie::new(alloc);
    for (i, text) in texts.iter().enumerate() {
        let put = trie.insert(name_of(rt, alloc, *text), i);
        assert!(rt; put.ok() == Some(None));
    }
    trie
}

// The names that a filter matches, in turn.
fn matched(rt: &impl Abort, alloc: Global, trie: &TopicTrie<usize>, text: &str) -> String {
    let filter = filter_of(rt, alloc, text);
    let mut told = String::new(alloc);
    for (name, _) in trie.matching(&filter).expect(rt, "memory") {
        tell(rt, &mut told, name.as_str());
    }
    told
}

// What stands at `a` before and after it is removed, and what is removed.
fn removed(rt: &impl Abort, alloc: Global, trie: &mut TopicTrie<usize>) -> [Option<usize>; 3] {
    let name = name_of(rt, alloc, "a");
    let before = trie.get(&name).copied();
    let removed = trie.remove(&name);
    let after = trie.get(&name).copied();
    [before, removed, after]
}

#[test]
fn names_that_a_filter_matches(rt: HostRuntime) {
    let mut trie = names(&rt, rt.alloc(), &["a/b", "$a", "a", "/b"]);
    for (text, found) in [
        ("#", "/b a a/b "),
        ("+/b", "/b a/b "),
        ("a/#", "a a/b "),
        ("$a", "$a "),
        ("$share/g/a", "a "),
        ("c", ""),
    ] {
        let told = matched(&rt, rt.alloc(), &trie, text);
        assert_eq!(rt; told.as_str(), found, "of {text}");
    }
    let found = removed(&rt, rt.alloc(), &mut trie);
    assert_eq!(rt; found, [Some(2), Some(2), None]);
    drop(trie);
}

// 31,999 levels, and this one.
fn deep(rt: &impl Abort, alloc: Global, last: &str) -> String {
    let mut text = String::new(alloc);
    for _ in 0..31999u32 {
        text.push_str("a/").expect(rt, "memory");
    }
    text.push_str(last).expect(rt, "memory");
    text
}

/// A filter and a name of 32,000 levels.
#[test]
fn deep_texts(rt: HostRuntime) {
    let (name, filter) = (deep(&rt, rt.alloc(), "b"), deep(&rt, rt.alloc(), "+"));
    let trie = filters(&rt, rt.alloc(), &[filter.as_str()]);
    let found = matching(&rt, rt.alloc(), &trie, name.as_str());
    assert_eq!(rt; found.len(), filter.len() + 1);
    drop((trie, name, filter, found));
}
