//! The earlier packages' files, which stand right after the command, each as `--with FILE` or `--with=FILE`.

ghost use Rattle.std.specs.Prelude.{◌≡◌, ◌++◌, ◌<◌, IfOk, IfSome, MatchOption, OnOk, drop, length};
ghost use Rattle.words.specs.Earlier.{with_files, behind_files, other_words, texts_of, lent_texts, is_option};
ghost use Rattle.words.specs.Earlier.{NamesNoFile, NamesFile};

use std::alloc::{AllocError, Global};

/// Whether `clap` takes the word for an option. A lone `-` is none.
fn is_option(word: &str) -> bool
    ensures { result ≡ is_option word.now }
{
    word.starts_with('-') && word != "-"
}

/// The file that the words begin with, and the words after it. A word that is an option is no file of the `--with`
/// before it.
fn file_in_front(words: &[String]) -> Option<(&str, &[String])>
    ensures named { MatchOption result (NamesNoFile (texts_of words.now))
        (λ parts. NamesFile (texts_of words.now) parts.0.now (texts_of parts.1.now)) }
    ensures fewer { IfSome result (λ parts. length parts.1.now < length words.now) }
{
    let [word, after @ ..] = words else {
        return None;
    };
    match after {
        [file, rest @ ..] if word.as_str() == "--with" && !is_option(file.as_str()) => {
            Some((file.as_str(), rest))
        }
        _ => match word.as_str().strip_prefix("--with=") {
            Some(file) => Some((file, after)),
            None => None,
        },
    }
}

/// The files that the words begin with, and the words after these.
pub fn files_in_front(
    alloc: Global,
    words: &[String],
) -> Result<(Vec<String>, &[String]), AllocError>
    ensures files { IfOk result (λ parts. texts_of parts.0.items ≡ with_files (texts_of words.now)) }
    ensures behind { IfOk result (λ parts. texts_of parts.1.now ≡ behind_files (texts_of words.now)) }
{
    let mut files = Vec::new(alloc);
    let mut behind = words;
    while let Some((file, after)) = file_in_front(behind) {
        files.push(String::from_str(alloc, file)?)?;
        behind = after;
    }
    Ok((files, behind))
}

/// Adds the words behind the others.
fn push_words<'a>(others: &mut Vec<&'a str>, words: &'a [String]) -> Result<(), AllocError>
    ensures { OnOk result (lent_texts others.new.items ≡ lent_texts others.old.items ++ texts_of words.now) }
{
    for word in words {
        others.push(word.as_str())?;
    }
    Ok(())
}

/// The earlier packages' files, and the words without those that name them.
pub fn parted(alloc: Global, words: &[String]) -> Result<(Vec<String>, Vec<&str>), AllocError>
    ensures files { IfOk result (λ parts. texts_of parts.0.items ≡ with_files (drop 2 (texts_of words.now))) }
    ensures others { IfOk result (λ parts. lent_texts parts.1.items ≡ other_words (texts_of words.now)) }
{
    let (front, behind) = words.split_at(words.len().min(2));
    let (files, behind) = files_in_front(alloc, behind)?;
    let mut others = Vec::new(alloc);
    push_words(&mut others, front)?;
    push_words(&mut others, behind)?;
    Ok((files, others))
}
