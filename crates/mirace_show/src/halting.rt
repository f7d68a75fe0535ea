//! Where an order can't go on, on the error output.
use mr_io::{Caller, Files, Sink, words_of};
use mr_show::mirace_show;
use std::alloc::{AllocError, Global};

// Whether these are the words `fill P O`.
fn is_fill(words: &[String]) -> bool {
    words.len() == 3 && words[0].as_str() == "fill"
}

// The words `halt P O`, where these are `fill P O`.
fn halt_words(alloc: Global, words: &[String]) -> Result<Vec<String>, AllocError> {
    let mut all = Vec::new(alloc);
    all.push(String::from_str(alloc, "halt")?)?;
    for word in words.iter().skip(1) {
        all.push(word.clone()?)?;
    }
    Ok(all)
}

/// Behind `fill P O` writes what `halt P O` writes: where the order can't go on. Whether that fails is not told.
pub fn tell_halt<C: Caller, F: Files, O: Sink>(
    alloc: Global,
    caller: &C,
    files: &mut F,
    out: &mut O,
) {
    let Ok(words) = words_of(alloc, caller) else {
        return;
    };
    if !is_fill(words.as_slice()) {
        return;
    }
    if let Ok(words) = halt_words(alloc, words.as_slice()) {
        let _status = mirace_show(alloc, words.as_slice(), files, out);
    }
}
