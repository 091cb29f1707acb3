//! Lists of distinct texts, and indexes of them that outgrow their first buckets.
use csv_rows::Ids;
use plan_model::{HashKey, Names, TextList};
use std::alloc::Global;
use std::test::Fail;
use text_index::TextIndex;

/// More texts than an index has buckets at first, all of one length.
const TEXTS: [&str; 20] = [
    "aa", "ab", "ac", "ad", "ae", "af", "ag", "ah", "ai", "aj", "ba", "bb", "bc", "bd", "be", "bf",
    "bg", "bh", "bi", "bj",
];

/// The list of these texts, each added twice, and how many of them were new.
fn list_of(alloc: Global) -> Result<(TextList, u32), Fail> {
    let mut list = TextList::new(alloc);
    let mut new = 0u32;
    for text in TEXTS.iter().chain(TEXTS.iter()) {
        if list.len() < 100 && new < 100 && list.add(alloc, text)? {
            new += 1;
        }
    }
    Ok((list, new))
}

/// Where a list has a text, if it has that text there.
fn index_in(list: &TextList, text: &str) -> Option<usize> {
    let number = list.number(text)?;
    (number < list.len() && list.get(number) == text).then_some(number as usize)
}

/// Where an index has a text, if it has that text there.
fn found_in(index: &TextIndex<'_>, text: &str) -> Option<usize> {
    let number = index.number(text)?;
    (number < index.len() && index.get(number) == text).then_some(number as usize)
}

/// Whether each text is found at its place, and no other is.
fn are_all<F: Fn(&str) -> Option<usize>>(len: u32, place: F) -> bool
    requires { F.IsAlwaysCallable place }
{
    for (i, text) in TEXTS.iter().enumerate() {
        if place(text) != Some(i) {
            return false;
        }
    }
    len == 20 && place("zz").is_none() && place("a").is_none()
}

/// Whether a list has each text at its place, and no other.
fn lists_all(list: &TextList) -> bool {
    are_all(list.len(), |text: &str| index_in(list, text))
}

/// The same of an index.
fn finds_all(index: &TextIndex<'_>) -> bool {
    are_all(index.len(), |text: &str| found_in(index, text))
}

#[test]
fn lists_each_text_once(rt: HostRuntime) -> Result<(), Fail> {
    let (list, new) = list_of(rt.alloc())?;
    assert_eq!(rt; new, 20);
    assert!(rt; lists_all(&list));
    let copy = list.try_clone(rt.alloc())?;
    assert!(rt; lists_all(&copy));
    Ok(())
}

/// Whether an index of a list by this key finds each text.
fn index_finds_all(alloc: Global, key: HashKey) -> Result<bool, Fail> {
    let (list, _new) = list_of(alloc)?;
    let index = TextIndex::of(alloc, key, &list)?;
    Ok(finds_all(&index))
}

#[test]
fn finds_the_texts_of_a_list(rt: HostRuntime) -> Result<(), Fail> {
    let fixed = index_finds_all(rt.alloc(), HashKey::fixed())?;
    assert!(rt; fixed);
    let drawn = index_finds_all(rt.alloc(), HashKey::drawn(&rt))?;
    assert!(rt; drawn);
    Ok(())
}

/// Whether an index that takes these texts, all different, numbers each by its position.
fn numbers_by_index<'a>(index: &mut TextIndex<'a>, texts: &[&'a str]) -> Result<bool, Fail> {
    for i in 0..texts.len() {
        if index.len() >= 100 || index.add(texts[i])? as usize != i {
            return Ok(false);
        }
    }
    Ok(true)
}

#[test]
fn numbers_texts_as_they_appear(rt: HostRuntime) -> Result<(), Fail> {
    let mut index = TextIndex::new(rt.alloc(), HashKey::fixed());
    let numbered = numbers_by_index(&mut index, &TEXTS)?;
    assert!(rt; numbered);
    let known = numbers_by_index(&mut index, &TEXTS)?;
    assert!(rt; known);
    assert!(rt; finds_all(&index));
    let list = index.list(rt.alloc())?;
    assert!(rt; lists_all(&list));
    Ok(())
}

#[test]
fn names_that_are_new_go_last(rt: HostRuntime) -> Result<(), Fail> {
    let mut names = Names::new(rt.alloc());
    names.push_place("a")?;
    names.push_run("b")?;
    assert_eq!(rt; names.place_texts().number("a"), Some(0));
    assert_eq!(rt; names.run_texts().number("b"), Some(0));
    assert_eq!(rt; names.run_texts().number("a"), None);
    Ok(())
}

#[test]
fn an_id_that_is_new_goes_last(rt: HostRuntime) -> Result<(), Fail> {
    let mut ids = Ids::of(HashKey::fixed(), TextList::new(rt.alloc()));
    ids.push(rt.alloc(), "a")?;
    assert_eq!(rt; ids.texts().number("a"), Some(0));
    assert_eq!(rt; ids.len(), 1);
    Ok(())
}
