//! The words of the command line, as a system gives them that a test makes up.
use mr_io::{wordless, words_of};
use std::env::{Env, FillError};
use std::io::{Error, ErrorKind};
use std::test::Fail;

// A program that is started with these words.
#[derive(Drop)]
struct Started<'a> {
    words: &'a [&'a [u8]],
}

impl Env for Started<'_> {
    fn arg(&self, i: usize, buf: &mut [u8]) -> Result<usize, FillError> {
        let Some(word) = self.words.get(i) else {
            return Err(FillError::NotPresent);
        };
        if word.len() > buf.len() {
            return Err(FillError::TooLong);
        }
        buf[..word.len()].copy_from_slice(word);
        Ok(word.len())
    }

    fn var(&self, _name: &str, _buf: &mut [u8]) -> Result<usize, FillError> {
        Err(FillError::NotPresent)
    }

    fn var_at(&self, _i: usize, _buf: &mut [u8]) -> Result<usize, FillError> {
        Err(FillError::NotPresent)
    }
}

#[test]
fn all_words_are_given(rt: HostRuntime) -> Result<(), Fail> {
    let alloc = rt.alloc();
    let words: [&[u8]; 7] = [b"mirace", b"auto", b"P", b"7", b"1", b"", b"word"];
    let started = (Started { words: &words }, alloc);
    let given = words_of(alloc, &started)?;
    assert_eq!(rt; given.len(), 6);
    for i in 0..given.len() {
        assert_eq!(rt; given[i].as_bytes(), words[i + 1]);
    }
    Ok(())
}

#[test]
fn a_word_may_be_no_text(rt: HostRuntime) -> Result<(), Fail> {
    let alloc = rt.alloc();
    let words: [&[u8]; 2] = [b"mirace", b"\xff"];
    let started = (Started { words: &words }, alloc);
    let given = words_of(alloc, &started);
    assert!(rt; matches!(given, Err(e) if wordless(&e) == 10));
    assert_eq!(rt; wordless(&Error::from(ErrorKind::OutOfMemory)), 8);
    Ok(())
}
