//! Whole files: a component's sections of types and exports, or a core module with a section that is such a component.
ghost use Rattle.std.specs.Prelude.{◌≡◌, ◌-◌, None, length, IfOk};
ghost use Rattle.std.specs.Option.{option_map};
ghost use Rattle.component_structure.specs.Bytes.{front, repeat, while_left};
ghost use Rattle.component_structure.specs.Bytes.{Answers};
ghost use Rattle.component_structure.specs.Parts.{structure_view};
ghost use Rattle.component_decoding.specs.File.{export_label, export_entry, sections};
ghost use Rattle.component_decoding.specs.File.{file_view, content_view, no_file, component_type, export, custom_of};
ghost use Rattle.component_decoding.specs.File.{encoding_fault, encoded, documented_by, version, producer, no_fields};
ghost use Rattle.component_decoding.specs.File.{with_field, custom};
ghost use Rattle.component_decoding.specs.File.{section_content, section};
ghost use Rattle.component_decoding.specs.File.{component, is_component_type, component_in};
ghost use Rattle.component_decoding.specs.File.{module_section, one_of_both};
ghost use Rattle.component_decoding.specs.File.{more_module, content_of_module, component_of_module};
ghost use Rattle.component_decoding.specs.File.{module_parts, decoded};

use crate::declarations::{Around, Decoder, entry_at, label_of};
use atoms::Label;
use component_structure::{
    DecodeError, Docs, Entry, Exported, Fault, Feature, Names, Reader, Scope, Structure,
};
use std::alloc::Global;

/// The magic number, the version and the layer of a component.
const COMPONENT: [u8; 8] = [0x00, 0x61, 0x73, 0x6d, 0x0d, 0x00, 0x01, 0x00];

/// The magic number and the version of a core module.
const MODULE: [u8; 8] = [0x00, 0x61, 0x73, 0x6d, 0x01, 0x00, 0x00, 0x00];

/// The most bytes of a component that is read.
const MAX_LENGTH: usize = 1_048_576;

/// A section that only tools read.
const CUSTOM: u8 = 0;

const TYPES: u8 = 7;

const EXPORTS: u8 = 11;

/// What is read of a file.
#[derive(Drop)]
struct File {
    decoder: Decoder,
    scope: Scope,
    names: Names,
}

/// The custom sections that say something of a package, and others.
#[derive(Clone, Copy)]
enum Custom {
    Encoding,
    Docs,
    Producers,
    Other,
}

/// The custom section of a name.
fn custom_of(name: &str) -> Custom
    ensures { result ≡ custom_of name.now }
{
    match name {
        "wit-component-encoding" => Custom::Encoding,
        "package-docs" => Custom::Docs,
        "producers" => Custom::Producers,
        _ => Custom::Other,
    }
}

/// What is wrong with the content of a section `wit-component-encoding`: version 4 and UTF-8 are read.
fn encoding_fault(content: &[u8]) -> Option<Feature>
    ensures { result ≡ encoding_fault content.now }
{
    match content {
        [4, 0] => None,
        [4, _] => Some(Feature::Utf16),
        _ => Some(Feature::Encoding),
    }
}

/// Reads a name and a version.
#[tactic(auto, unfolding(crate::specs::File::version))]
fn skip_version(reader: &mut Reader<'_>) -> Result<(), DecodeError>
    ensures reads { Answers (λ _. (0, reader.new.rest.now)) result
        ((version reader.old.end 0).read reader.old.rest.now) }
    ensures whole { reader.new.end ≡ reader.old.end }
{
    reader.name()?;
    reader.name()?;
    Ok(())
}

/// Reads so many names and versions.
fn skip_versions(reader: &mut Reader<'_>, count: u32) -> Result<(), DecodeError>
    ensures reads { Answers (λ _. (0, reader.new.rest.now)) result
        ((repeat count (version reader.old.end) 0).read reader.old.rest.now) }
    ensures whole { reader.new.end ≡ reader.old.end }
{
    for _ in 0..count {
        skip_version(reader)?;
    }
    Ok(())
}

/// Which fields of a section `producers` were read.
#[derive(Drop)]
struct ProducersFields {
    language: bool,
    processed_by: bool,
    sdk: bool,
}

impl ProducersFields {
    /// None.
    fn new() -> ProducersFields
        ensures { result ≡ no_fields }
    {
        ProducersFields {
            language: false,
            processed_by: false,
            sdk: false,
        }
    }

    /// Notes a field of this name at this offset: a known one that was not read before.
    fn note(&mut self, name: &str, place: usize) -> Result<(), DecodeError>
        ensures { Answers (λ _. self.new) result (with_field place name.now self.old) }
    {
        match name {
            "language" if !self.language => self.language = true,
            "processed-by" if !self.processed_by => self.processed_by = true,
            "sdk" if !self.sdk => self.sdk = true,
            _ => return Err(DecodeError::At(Fault::BadProducers, place)),
        }
        Ok(())
    }
}

/// Reads a field of names and versions.
#[tactic(auto, unfolding(crate::specs::File::producer))]
fn skip_producer(reader: &mut Reader<'_>, fields: &mut ProducersFields) -> Result<(), DecodeError>
    ensures reads { Answers (λ _. (fields.new, reader.new.rest.now)) result
        ((producer reader.old.end fields.old).read reader.old.rest.now) }
    ensures whole { reader.new.end ≡ reader.old.end }
{
    let place = reader.place();
    fields.note(reader.name()?, place)?;
    let count = reader.number()?;
    skip_versions(reader, count)
}

/// Reads so many fields of names and versions, as the section `producers` has them, each once at most.
fn skip_producers(reader: &mut Reader<'_>, count: u32) -> Result<ProducersFields, DecodeError>
    ensures reads { Answers (λ fields. (fields, reader.new.rest.now)) result
        ((repeat count (producer reader.old.end) no_fields).read reader.old.rest.now) }
    ensures whole { reader.new.end ≡ reader.old.end }
{
    let mut fields = ProducersFields::new();
    for _ in 0..count {
        skip_producer(reader, &mut fields)?;
    }
    Ok(fields)
}

/// The name of an export, which differs in more than case from the others.
#[tactic(auto, unfolding(crate::specs::File::export_label))]
fn export_label(
    alloc: Global,
    reader: &mut Reader<'_>,
    names: &mut Names,
) -> Result<Label, DecodeError>
    ensures reads { Answers (λ x. ((x, names.new), reader.new.rest.now)) result
        ((export_label reader.old.end (reader.old.end - length reader.old.rest.now) names.old).read
        reader.old.rest.now) }
    ensures whole { reader.new.end ≡ reader.old.end }
{
    let place = reader.place();
    let name = label_of(reader.extern_name(alloc)?, place)?;
    if names.add(name.as_str())? {
        return Ok(name);
    }
    Err(DecodeError::At(Fault::NameTwice, place))
}

/// What an export is: the type at an index, and the index's offset.
#[tactic(auto, unfolding(crate::specs::File::export_entry))]
fn export_entry(reader: &mut Reader<'_>, own: &Scope) -> Result<(Entry, usize), DecodeError>
    ensures reads { Answers (λ x. ((x.1, x.0), reader.new.rest.now)) result
        ((export_entry reader.old.end own.now.types.items).read reader.old.rest.now) }
    ensures whole { reader.new.end ≡ reader.old.end }
{
    let place = reader.place();
    match reader.byte()? {
        3 => entry_at(reader, own),
        byte => Err(DecodeError::At(Fault::UnknownByte(byte), place)),
    }
}

impl File {
    fn new(alloc: Global) -> File
        ensures { file_view result ≡ no_file }
    {
        let mut decoder = Decoder::new(alloc);
        let scope = decoder.new_scope();
        File {
            decoder,
            scope,
            names: Names::new(alloc),
        }
    }

    /// A type of a section.
    #[tactic(auto, unfolding(crate::specs::File::component_type))]
    fn component_type(&mut self, reader: &mut Reader<'_>) -> Result<(), DecodeError>
        ensures reads { Answers (λ _. (file_view self.new, reader.new.rest.now)) result
            ((component_type reader.old.end (file_view self.old)).read reader.old.rest.now) }
        ensures whole { reader.new.end ≡ reader.old.end }
    {
        let place = reader.place();
        let entry = self
            .decoder
            .type_entry(reader, Around::nothing(), &self.scope)?;
        self.decoder.push_type(&mut self.scope, entry, place)
    }

    /// So many types of a section.
    fn types(&mut self, reader: &mut Reader<'_>, count: u32) -> Result<(), DecodeError>
        ensures reads { Answers (λ _. (file_view self.new, reader.new.rest.now)) result
            ((repeat count (component_type reader.old.end) (file_view self.old)).read reader.old.rest.now) }
        ensures whole { reader.new.end ≡ reader.old.end }
    {
        for _ in 0..count {
            self.component_type(reader)?;
        }
        Ok(())
    }

    /// An export: a component type under a label. It takes an index too.
    #[tactic(auto, unfolding(crate::specs::File::export))]
    fn export(&mut self, reader: &mut Reader<'_>) -> Result<(), DecodeError>
        ensures reads { Answers (λ _. (file_view self.new, reader.new.rest.now)) result
            ((export reader.old.end (file_view self.old)).read reader.old.rest.now) }
        ensures whole { reader.new.end ≡ reader.old.end }
    {
        let place = reader.place();
        let name = export_label(self.decoder.alloc, reader, &mut self.names)?;
        let (entry, index) = export_entry(reader, &self.scope)?;
        if reader.flag()? {
            return Err(DecodeError::At(Fault::Outside(Feature::AscribedType), place));
        }
        let Entry::Component(scope) = entry else {
            return Err(DecodeError::At(Fault::WrongSort, index));
        };
        self.decoder.push_type(&mut self.scope, entry, place)?;
        let exported = Exported { place, name, scope };
        self.decoder.structure.exports.push(exported)?;
        Ok(())
    }

    /// So many exports of a section.
    fn exports(&mut self, reader: &mut Reader<'_>, count: u32) -> Result<(), DecodeError>
        ensures reads { Answers (λ _. (file_view self.new, reader.new.rest.now)) result
            ((repeat count (export reader.old.end) (file_view self.old)).read reader.old.rest.now) }
        ensures whole { reader.new.end ≡ reader.old.end }
    {
        for _ in 0..count {
            self.export(reader)?;
        }
        Ok(())
    }

    /// What a section `wit-component-encoding` says.
    fn encoding(&mut self, reader: &Reader<'_>) -> Result<(), DecodeError>
        ensures { Answers (λ _. file_view self.new) result
            (encoded reader.now.end (file_view self.old) reader.now.rest.now (encoding_fault reader.now.rest.now)) }
    {
        if let Some(feature) = encoding_fault(reader.rest()) {
            return Err(reader.fault(Fault::Outside(feature)));
        }
        self.decoder.structure.is_world = true;
        Ok(())
    }

    /// The comments of a package, behind a version.
    fn docs(&mut self, reader: &mut Reader<'_>) -> Result<(), DecodeError>
        ensures { Answers (λ _. file_view self.new) result
            (documented_by reader.old.end (file_view self.old) reader.old.rest.now) }
    {
        let place = reader.place();
        if reader.byte()? > 1 || self.decoder.structure.docs.is_some() {
            return Err(DecodeError::At(Fault::BadDocs, place));
        }
        let json = Vec::from_slice(self.decoder.alloc, reader.rest())?;
        self.decoder.structure.docs = Some(Docs { place, json });
        Ok(())
    }

    /// A section that only tools read. Of most the name is read alone.
    #[tactic(auto, unfolding(crate::specs::File::custom, crate::specs::File::producers))]
    fn custom(&mut self, reader: &mut Reader<'_>) -> Result<(), DecodeError>
        ensures { Answers (λ _. file_view self.new) result
            (custom reader.old.end (file_view self.old) reader.old.rest.now) }
    {
        match custom_of(reader.name()?) {
            Custom::Encoding => self.encoding(reader),
            Custom::Docs => self.docs(reader),
            Custom::Producers => {
                let count = reader.number()?;
                skip_producers(reader, count)?;
                reader.finish()
            }
            Custom::Other => Ok(()),
        }
    }

    /// The content of a section that has this number, and begins at this offset.
    #[tactic(auto, unfolding(crate::specs::File::section_content, crate::specs::File::type_section, crate::specs::File::export_section,),)]
    fn content(&mut self, place: usize, id: u8, mut content: Reader<'_>) -> Result<(), DecodeError>
        ensures { Answers (λ _. file_view self.new) result
            (section_content place id content.entry.end (file_view self.old) content.entry.rest.now) }
    {
        match id {
            CUSTOM => return self.custom(&mut content),
            TYPES => {
                let count = content.number()?;
                self.types(&mut content, count)?;
            }
            EXPORTS => {
                let count = content.number()?;
                self.exports(&mut content, count)?;
            }
            _ => return Err(DecodeError::At(Fault::Outside(Feature::Section(id)), place)),
        }
        content.finish()
    }

    /// A section.
    #[tactic(auto, unfolding(crate::specs::File::section))]
    fn section(&mut self, reader: &mut Reader<'_>) -> Result<(), DecodeError>
        ensures reads { Answers (λ _. (file_view self.new, reader.new.rest.now)) result
            ((section reader.old.end (file_view self.old)).read reader.old.rest.now) }
        ensures whole { reader.new.end ≡ reader.old.end }
    {
        let place = reader.place();
        let id = reader.byte()?;
        let content = reader.part()?;
        self.content(place, id, content)
    }
}

/// What the sections of a component have.
fn sections(alloc: Global, reader: Reader<'_>) -> Result<File, DecodeError>
    ensures { Answers file_view result (front (sections reader.entry.end reader.entry.rest.now)) }
{
    let mut file = File::new(alloc);
    let mut left = reader;
    for _ in 0..reader.rest().len() {
        if left.is_empty() {
            break;
        }
        file.section(&mut left)?;
    }
    Ok(file)
}

/// The structure of a component, behind its preamble.
#[tactic(auto, unfolding(crate::specs::File::component))]
fn component(alloc: Global, reader: Reader<'_>) -> Result<Structure, DecodeError>
    ensures { Answers structure_view result (component reader.entry.end reader.entry.rest.now) }
{
    if reader.rest().len() > MAX_LENGTH {
        return Err(reader.fault(Fault::Limit));
    }
    let file = sections(alloc, reader)?;
    Ok(file.decoder.structure)
}

/// Whether the name begins with `component-type`.
fn is_component_type(name: &str) -> bool
    ensures { result ≡ is_component_type name.now }
{
    name.as_bytes().starts_with("component-type".as_bytes())
}

/// The content behind the name of a section of a core module, if its name begins with `component-type`.
fn component_in(id: u8, mut content: Reader<'_>) -> Result<Option<Reader<'_>>, DecodeError>
    ensures { Answers (option_map content_view) result
        (component_in id content.entry.end content.entry.rest.now) }
{
    if id == CUSTOM && is_component_type(content.name()?) {
        return Ok(Some(content));
    }
    Ok(None)
}

/// The component that a section of a core module is, if it is one.
#[tactic(auto, unfolding(crate::specs::File::module_section))]
fn module_section<'a>(reader: &mut Reader<'a>) -> Result<Option<Reader<'a>>, DecodeError>
    ensures reads { Answers (λ x. (option_map content_view x, reader.new.rest.now)) result
        ((module_section reader.old.end).read reader.old.rest.now) }
    ensures whole { reader.new.end ≡ reader.old.end }
{
    let id = reader.byte()?;
    let content = reader.part()?;
    component_in(id, content)
}

/// The component of a core module, by what was found before and what a section has. The same one may stand twice.
fn one_of_both<'a>(
    found: Option<Reader<'a>>,
    next: Option<Reader<'a>>,
) -> Result<Option<Reader<'a>>, DecodeError>
    ensures { Answers (option_map content_view) result
        (one_of_both (option_map content_view found.entry) (option_map content_view next.entry)) }
{
    match (found, next) {
        (_, None) => Ok(found),
        (None, Some(_)) => Ok(next),
        (Some(first), Some(content)) => {
            if first.rest() != content.rest() {
                return Err(content.fault(Fault::SeveralSections));
            }
            Ok(found)
        }
    }
}

/// One more section of a core module.
#[tactic(auto, unfolding(crate::specs::File::more_module))]
fn more_module<'a>(
    reader: &mut Reader<'a>,
    found: Option<Reader<'a>>,
) -> Result<Option<Reader<'a>>, DecodeError>
    ensures reads { Answers (λ x. (option_map content_view x, reader.new.rest.now)) result
        ((more_module reader.old.end (option_map content_view found.entry)).read reader.old.rest.now) }
    ensures whole { reader.new.end ≡ reader.old.end }
{
    let next = module_section(reader)?;
    one_of_both(found, next)
}

/// The section of a core module that is a component, if it has one, and what is left of the bytes.
fn found_in_module<'a>(reader: Reader<'a>) -> Result<(Option<Reader<'a>>, Reader<'a>), DecodeError>
    ensures reads { Answers (λ x. (option_map content_view x.0, x.1.rest.now)) result
        (while_left (more_module reader.entry.end) None reader.entry.rest.now) }
    ensures whole { IfOk result (λ x. x.1.end ≡ reader.entry.end) }
{
    let mut left = reader;
    let mut found = None;
    for _ in 0..reader.rest().len() {
        if left.is_empty() {
            break;
        }
        found = more_module(&mut left, found)?;
    }
    Ok((found, left))
}

/// The one section of a core module that is a component, behind the module's preamble.
#[tactic(auto, unfolding(crate::specs::File::content_of_module))]
fn section_of_module(reader: Reader<'_>) -> Result<Reader<'_>, DecodeError>
    ensures { Answers content_view result (content_of_module reader.entry.end reader.entry.rest.now) }
{
    match found_in_module(reader)? {
        (Some(content), _) => Ok(content),
        (None, left) => Err(left.fault(Fault::NoSection)),
    }
}

/// The structure of the component in a core module, which has to say that it encodes a world.
#[tactic(auto, unfolding(crate::specs::File::component_of_module))]
fn world(alloc: Global, mut content: Reader<'_>) -> Result<Structure, DecodeError>
    ensures { Answers structure_view result (component_of_module (content_view content.entry)) }
{
    let place = content.place();
    if content.bytes(COMPONENT.len())? != COMPONENT.as_slice() {
        return Err(DecodeError::At(Fault::NotComponent, place));
    }
    let structure = component(alloc, content)?;
    if !structure.is_world {
        return Err(DecodeError::At(Fault::NoEncoding, place));
    }
    Ok(structure)
}

/// What the bytes behind a core module's preamble have.
fn module(alloc: Global, reader: Reader<'_>) -> Result<Structure, DecodeError>
    ensures { Answers structure_view result (module_parts reader.entry.end reader.entry.rest.now) }
{
    world(alloc, section_of_module(reader)?)
}

/// What a component's types and exports are, or those of the section of a core module whose name begins with
/// `component-type`. All indices are followed. A section that may not stand there, an index that its space does not
/// have, names that differ in case at most, and what is outside of packages here are refused. A component has at most
/// 1,048,576 bytes behind its preamble, 65,535 type indices, and 4 scopes within one another.
#[tactic(auto, unfolding(crate::specs::File::decoded))]
pub fn decode(alloc: Global, bytes: &[u8]) -> Result<Structure, DecodeError>
    ensures { Answers structure_view result (decoded bytes.now) }
{
    let mut reader = Reader::new(bytes);
    if bytes.starts_with(COMPONENT.as_slice()) {
        reader.bytes(COMPONENT.len())?;
        return component(alloc, reader);
    }
    if bytes.starts_with(MODULE.as_slice()) {
        reader.bytes(MODULE.len())?;
        return module(alloc, reader);
    }
    Err(DecodeError::At(Fault::NotComponent, 0))
}
