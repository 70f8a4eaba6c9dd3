//! Tests of the words that the system hands over, as it started the program.

use crate::asserts::{done, holds};
use night_words::{WordsFault, own_words};
use std::alloc::{AllocError, Global};
use std::env;
use std::env::{Env, FillError};

/// Words of one, no and two bytes a letter.
static TEXTS: [&[u8]; 3] = [b"night", b"", b"d\xc3\xa9mo"];

/// A byte that stands nowhere in UTF-8.
static NO_TEXT: [&[u8]; 3] = [b"night", b"demo", b"\xff"];

/// A system that started the program with these words.
#[derive(Drop)]
struct Started {
    words: &'static [&'static [u8]],
}

impl Env for Started {
    fn arg(&self, i: usize, buf: &mut [u8]) -> Result<usize, FillError> {
        let Some(word) = self.words.get(i) else {
            return Err(FillError::NotPresent);
        };
        if word.len() > buf.len() {
            return Err(FillError::TooLong);
        }
        buf[..word.len()].copy_from_slice(word);
        Ok(word.len())
    }

    fn var(&self, _name: &str, _buf: &mut [u8]) -> Result<usize, FillError> {
        Err(FillError::NotPresent)
    }

    fn var_at(&self, _i: usize, _buf: &mut [u8]) -> Result<usize, FillError> {
        Err(FillError::NotPresent)
    }
}

/// The words of a system that started the program with these.
fn started_with(alloc: Global, words: &'static [&'static [u8]]) -> Result<Vec<String>, WordsFault> {
    own_words(alloc, env::args(&(Started { words }, alloc)))
}

fn are_texts(words: &[String], wanted: &[&str]) -> bool {
    for (n, text) in wanted.iter().enumerate() {
        match words.get(n) {
            Some(word) if word.as_str() == *text => {}
            _ => return false,
        }
    }
    words.len() == wanted.len()
}

/// Says whether these are the words of a system that started the program with those.
fn are_words(alloc: Global, words: &'static [&'static [u8]], wanted: &[&str]) -> bool {
    match started_with(alloc, words) {
        Ok(words) => are_texts(&words, wanted),
        Err(_) => false,
    }
}

#[test]
fn own_words_are_all_words(rt: HostRuntime) {
    let are_all = are_words(rt.alloc(), &TEXTS, &["night", "", "d\u{e9}mo"]);
    holds(&rt, are_all, "words", 3);
}

/// What is shown of words that are no text; nothing where they are one, or at fault otherwise.
fn shown_of(alloc: Global, words: &'static [&'static [u8]]) -> Result<String, AllocError> {
    match started_with(alloc, words) {
        Err(WordsFault::NotText) => WordsFault::NotText.to_string(alloc),
        _ => Ok(String::new(alloc)),
    }
}

#[test]
fn a_word_that_is_no_text_is_refused(rt: HostRuntime) {
    let shown = done(&rt, shown_of(rt.alloc(), &NO_TEXT), "memory");
    let is_reported = shown.as_str() == "error: a word is no text in UTF-8\n";
    holds(&rt, is_reported, "text", 0);
}
