//! The words of the command line, each as text.

use std::alloc::Global;
use std::env::{self, Env, FillError};
use std::{io, str};

// The words of the system, with a word that is not UTF-8 as an empty one. It has no variables.
#[derive(Drop)]
struct TextWords<'a, R>(&'a R);

impl<R: Env> Env for TextWords<'_, R> {
    fn arg(&self, i: usize, buf: &mut [u8]) -> Result<usize, FillError> {
        let len = self.0.arg(i, buf)?;
        match str::from_utf8(&buf[..len]) {
            Ok(_) => Ok(len),
            Err(_) => Ok(0),
        }
    }

    fn var(&self, _name: &str, _buf: &mut [u8]) -> Result<usize, FillError> {
        Err(FillError::NotPresent)
    }

    fn var_at(&self, _i: usize, _buf: &mut [u8]) -> Result<usize, FillError> {
        Err(FillError::NotPresent)
    }
}

/// The words after the program's name. One that is not UTF-8 is an empty word. The only error is out of memory.
pub fn text_words<R: Env>(rt: &R, alloc: Global) -> io::Result<Vec<String>> {
    let mut words = Vec::new(alloc);
    for word in env::args(&(TextWords(rt), alloc))?.skip(1) {
        words.push(word)?;
    }
    Ok(words)
}
