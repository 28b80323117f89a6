//! The texts of files, and their trees.
ghost use Rattle.std.specs.Prelude.{◌≡◌, length, IfOk, OnOk, IfErr};
ghost use Rattle.wit_files.specs.Shown.{AreShown, IsFault};
ghost use Rattle.wit_faults.specs.Wanting.{IsTold};

use crate::sources::{MAX_TEXT, Source};
use std::alloc::{AllocError, Global};
use std::collections::BTreeMap;
use wit_comments::without_item;
use wit_faults::{Cause, Lexed, PackageRef, Report};
use wit_text::{Ast, Expected, Keyword, Span, TextError, Token, lex, parse};

/// The most faults that are told of a text, or of the names of a package.
pub const MAX_FAULTS: usize = 20;

/// A file as it can be shown.
#[derive(Drop)]
pub struct Text<'a> {
    pub source: &'a Source,
    pub lexed: Lexed<'a>,
}

/// What the first line of a text names: its package, and how it is spelled.
#[derive(Clone, Copy)]
struct Header<'a> {
    package: PackageRef<'a>,
    spelled: &'a str,
}

/// The longest front of these bytes that is a text.
fn front(bytes: &[u8]) -> &str {
    let end = match std::str::from_utf8(bytes) {
        Ok(text) => return text,
        Err(error) => error.valid_up_to(),
    };
    match bytes.get(..end) {
        Some(front) => std::str::from_utf8(front).unwrap_or(""),
        None => "",
    }
}

/// The tokens of a text. None if it has a fault in them.
fn whole_tokens(alloc: Global, text: &str) -> Result<Vec<Token>, AllocError> {
    match lex(alloc, text) {
        Ok(tokens) => Ok(tokens),
        Err(TextError::NoMemory) => Err(AllocError),
        Err(_) => Ok(Vec::new(alloc)),
    }
}

/// The tokens before the first fault in those of a text.
fn tokens_before(alloc: Global, text: &str, fault: &TextError) -> Result<Vec<Token>, AllocError>
    ensures { IfOk result (λ _. IsFault fault.now) }
{
    match fault {
        TextError::NoMemory => Err(AllocError),
        TextError::BadChar(span) | TextError::OpenComment(span) => {
            whole_tokens(alloc, text.get(..span.start).unwrap_or(""))
        }
        _ => Ok(Vec::new(alloc)),
    }
}

/// The tokens of a text as they can be shown: all of them, unless it has a fault in them.
pub fn tokens_of(alloc: Global, text: &str) -> Result<Vec<Token>, AllocError>
    ensures { IfOk result (λ tokens. AreShown text.now tokens.items) }
{
    match lex(alloc, text) {
        Ok(tokens) => Ok(tokens),
        Err(fault) => tokens_before(alloc, text, &fault),
    }
}

/// What can be shown of a file.
fn shown(alloc: Global, source: &Source) -> Result<Text<'_>, AllocError> {
    let text = match &source.bytes {
        Ok(bytes) => front(bytes.as_slice()),
        Err(_) => "",
    };
    let path = source.path.as_str();
    let tokens = tokens_of(alloc, text)?;
    let lexed = Lexed { path, text, tokens };
    Ok(Text { source, lexed })
}

/// What can be shown of these files.
pub fn texts_of<'a>(alloc: Global, sources: &'a [Source]) -> Result<Vec<Text<'a>>, AllocError>
    ensures { IfOk result (λ texts. length texts.items ≡ length sources.now) }
{
    let mut texts = Vec::new(alloc);
    for source in sources {
        texts.push(shown(alloc, source)?)?;
    }
    Ok(texts)
}

/// The bytes as a text.
fn text_of(bytes: &[u8]) -> Result<&str, Cause> {
    if bytes.len() > MAX_TEXT {
        return Err(Cause::Text(TextError::Limit));
    }
    match std::str::from_utf8(bytes) {
        Ok(text) => Ok(text),
        Err(error) => Err(Cause::NotUtf8(error.valid_up_to())),
    }
}

/// Where a span is in a text without so many bytes in front.
fn earlier(span: Span, front: usize) -> Span {
    Span {
        start: span.start.saturating_sub(front),
        end: span.end.saturating_sub(front),
    }
}

/// An error of a text, as that of the text without so many bytes in front.
fn without_front(error: TextError, front: usize) -> TextError {
    match error {
        TextError::BadChar(span) => TextError::BadChar(earlier(span, front)),
        TextError::OpenComment(span) => TextError::OpenComment(earlier(span, front)),
        TextError::Expected(expected, span) => {
            TextError::Expected(expected, earlier(span, front))
        }
        TextError::Unsupported(feature, span) => {
            TextError::Unsupported(feature, earlier(span, front))
        }
        TextError::Depth(span) => TextError::Depth(earlier(span, front)),
        TextError::NoMemory => TextError::NoMemory,
        TextError::Limit => TextError::Limit,
    }
}

/// A tree that was read. None if its text has a fault.
pub fn read_if_whole(read: Result<Ast, TextError>) -> Result<Option<Ast>, AllocError>
    ensures { IfErr read (λ e. OnOk result (IsFault e)) }
{
    match read {
        Ok(tree) => Ok(Some(tree)),
        Err(TextError::NoMemory) => Err(AllocError),
        Err(_) => Ok(None),
    }
}

/// The tree of a text that has so many bytes in front.
fn tree_behind(alloc: Global, whole: &str, front: usize) -> Result<Ast, TextError> {
    match parse(alloc, whole) {
        Ok(tree) => Ok(tree),
        Err(error) => Err(without_front(error, front)),
    }
}

/// The tree of a text without a `package` line, read below one that names this package.
pub fn tree_below(alloc: Global, package: &str, text: &str) -> Result<Ast, TextError> {
    let whole = format!(in alloc; "package {package};\n{text}")?;
    tree_behind(
        alloc,
        whole.as_str(),
        whole.len().saturating_sub(text.len()),
    )
}

/// A fault of a text, with the tokens that the text had when it was found.
#[derive(Drop)]
struct TextFault<'a> {
    /// Its offset. None if the text can't be read on behind it.
    place: Option<usize>,
    cause: Cause,
    lexed: Lexed<'a>,
    ghost told: { IsTold cause },
}

/// Whether the line of the package has to come.
fn wants_package(cause: &Cause) -> bool {
    matches!(
        cause,
        Cause::Text(TextError::Expected(Expected::Keyword(Keyword::Package), _))
    )
}

/// Where a text has a fault behind which it can be read on.
fn place_of(cause: &Cause) -> Option<usize> {
    match cause {
        _ if wants_package(cause) => None,
        Cause::Text(
            TextError::BadChar(span)
            | TextError::Expected(_, span)
            | TextError::Unsupported(_, span)
            | TextError::Depth(span),
        ) => Some(span.start),
        _ => None,
    }
}

/// A fault of a text that is left of a file. Want of memory is none.
fn text_fault<'a>(
    alloc: Global,
    file: &Text<'a>,
    left: &str,
    cause: Cause,
) -> Result<TextFault<'a>, AllocError> {
    let cause = cause.told()?;
    let (path, text) = (file.lexed.path, file.lexed.text);
    let tokens = tokens_of(alloc, left)?;
    let lexed = Lexed { path, text, tokens };
    Ok(TextFault {
        place: place_of(&cause),
        cause,
        lexed,
    })
}

/// Skips the item of a text that has the last of these faults. False if the text can't be read on behind it.
fn skip_last(
    alloc: Global,
    left: &mut String,
    faults: &[TextFault<'_>],
) -> Result<bool, AllocError> {
    let Some(
        TextFault {
            place: Some(place),
            ..
        },
    ) = faults.last()
    else {
        return Ok(false);
    };
    let Some(skipped) = without_item(alloc, left.as_str(), *place)? else {
        return Ok(false);
    };
    *left = skipped.text;
    Ok(true)
}

/// Reports faults of a file.
fn report_each(alloc: Global, report: &mut Report, faults: &[TextFault<'_>]) {
    for fault in faults {
        report.add(alloc, &fault.lexed, &[], &fault.cause);
    }
}

/// The first lines that name packages. A text without one is read below that of its folder.
#[derive(Drop)]
pub struct Headers<'a> {
    alloc: Global,
    /// The first of each folder. None if its files name several packages.
    folders: BTreeMap<String, Option<Header<'a>>>,
}

impl<'a> Headers<'a> {
    /// Those of these texts.
    pub fn of(alloc: Global, texts: &[Text<'a>]) -> Result<Headers<'a>, AllocError> {
        let mut headers = Headers {
            alloc,
            folders: BTreeMap::new(alloc),
        };
        for text in texts {
            if let Some(own) = text.lexed.own_package() {
                let header = Header {
                    package: own.package,
                    spelled: text.lexed.at(own.span),
                };
                headers.add(text.source.folder.as_str(), header)?;
            }
        }
        Ok(headers)
    }

    /// Adds that of a text of a folder.
    fn add(&mut self, folder: &str, header: Header<'a>) -> Result<(), AllocError> {
        let shared = match self.folders.get(folder).copied() {
            None => Some(header),
            Some(Some(first)) if !first.package.is(header.package) => None,
            Some(_) => return Ok(()),
        };
        self.folders
            .insert(String::from_str(self.alloc, folder)?, shared)?;
        Ok(())
    }

    /// The first line that names the package of a folder, if its files name one alone.
    fn shared(&self, folder: &str) -> Option<Header<'a>> {
        self.folders.get(folder).copied()?
    }

    /// The tree of a file that has this text.
    fn tree_with(&self, file: &Text<'_>, text: &str) -> Result<Ast, Cause> {
        if !file.lexed.has_package_line()
            && let Some(header) = self.shared(file.source.folder.as_str())
        {
            return Ok(tree_below(self.alloc, header.spelled, text)?);
        }
        Ok(parse(self.alloc, text)?)
    }

    /// The tree of a file.
    pub fn tree_of(&self, file: &Text<'_>) -> Result<Ast, Cause> {
        let bytes = match &file.source.bytes {
            Ok(bytes) => bytes.as_slice(),
            Err(error) => return Err(Cause::Read(*error)),
        };
        self.tree_with(file, text_of(bytes)?)
    }

    /// Reads a file on behind the last of these faults, with blanks in place of the items that have them. It adds those
    /// that are found. None if it can't be read on, or has too many.
    fn read_on<'b>(
        &self,
        file: &Text<'b>,
        left: &mut String,
        faults: &mut Vec<TextFault<'b>>,
    ) -> Result<Option<Ast>, AllocError> {
        for _ in 0..MAX_FAULTS {
            if !skip_last(self.alloc, left, faults.as_slice())? {
                return Ok(None);
            }
            match self.tree_with(file, left.as_str()) {
                Ok(tree) => return Ok(Some(tree)),
                Err(next) if next.lacks_memory() => return Err(AllocError),
                Err(next) if wants_package(&next) || faults.len() >= MAX_FAULTS => return Ok(None),
                Err(next) => faults.push(text_fault(self.alloc, file, left.as_str(), next)?)?,
            }
        }
        Ok(None)
    }

    /// The tree of a file without the items that have faults, of which the first is known. All are added to these.
    /// None if it can't be read on, or has too many.
    fn tree_of_rest<'b>(
        &self,
        file: &Text<'b>,
        first: Cause,
        faults: &mut Vec<TextFault<'b>>,
    ) -> Result<Option<Ast>, AllocError> {
        faults.push(text_fault(self.alloc, file, file.lexed.text, first)?)?;
        let mut left = String::from_str(self.alloc, file.lexed.text)?;
        self.read_on(file, &mut left, faults)
    }

    /// The tree of a file's package without any item, if the file names it.
    fn empty_tree(&self, file: &Text<'_>) -> Result<Option<Ast>, AllocError> {
        match file.lexed.own_package() {
            Some(own) => read_if_whole(tree_below(self.alloc, file.lexed.at(own.span), "")),
            None => Ok(None),
        }
    }

    /// Reports the faults of a file, of which the first that was found is known, in the order of their places. It
    /// answers what can be read of the file without them. None if its package isn't known. Want of memory is no fault.
    pub fn rest_of(
        &self,
        report: &mut Report,
        file: &Text<'_>,
        first: Cause,
    ) -> Result<Option<Ast>, AllocError>
        ensures { OnOk result (report.new.status ≡ 1) }
    {
        let mut faults = Vec::new(self.alloc);
        let tree = self.tree_of_rest(file, first, &mut faults)?;
        faults.sort_by_key(|fault| fault.place.unwrap_or(usize::MAX))?;
        report_each(self.alloc, report, faults.as_slice());
        report.status = 1;
        match tree {
            Some(tree) => Ok(Some(tree)),
            None => self.empty_tree(file),
        }
    }
}
