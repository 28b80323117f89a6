//! The sections of a core module. (The core specification, "Binary Format")
ghost use Rattle.std.specs.Prelude.{◌≡◌, [], slice_get};
ghost use Rattle.component_structure.specs.Bytes.{Answers, front, repeat};
ghost use Rattle.core_modules.specs.Module.{function_view, module_view};
ghost use Rattle.core_modules.specs.Sections.{reader_view, long_number, type_of, core_type, next_type, core_types};
ghost use Rattle.core_modules.specs.Sections.{function_mark, function_type, limits, function, imported, import_};
ghost use Rattle.core_modules.specs.Sections.{own_function, exported_of, exported, export, rank_of};
ghost use Rattle.core_modules.specs.Sections.{ranked, known_content, custom_content, section_content, section};
ghost use Rattle.core_modules.specs.Sections.{table, nothing_read, sections, declared_by};

use crate::module::{CoreModule, Custom, Import, Item};
use crate::types::{CoreType, FunctionType};
use component_structure::{DecodeError, Fault, Reader};
use std::alloc::Global;

/// The magic number and the version of a core module.
const PREAMBLE: [u8; 8] = [0x00, 0x61, 0x73, 0x6d, 0x01, 0x00, 0x00, 0x00];

/// A section that only tools read.
const CUSTOM: u8 = 0;

const TYPES: u8 = 1;

const IMPORTS: u8 = 2;

const FUNCTIONS: u8 = 3;

const EXPORTS: u8 = 7;

/// How many bytes a number of 64 bits has at most.
const MAX_GROUPS: usize = 10;

/// A module that is read.
#[derive(Drop)]
struct ModuleReader<'a> {
    alloc: Global,
    read: CoreModule<'a>,
    /// The rank of the last section but custom ones.
    passed: usize,
}

/// Reads a number of up to 64 bits, which is not needed.
fn skip_number(reader: &mut Reader<'_>) -> Result<(), DecodeError>
    ensures reads { Answers (λ _. (0, reader.new.rest.now)) result
        ((long_number reader.old.end).read reader.old.rest.now) }
    ensures whole { reader.new.end ≡ reader.old.end }
{
    let place = reader.place();
    for _ in 0..MAX_GROUPS {
        if reader.byte()? < 128 {
            return Ok(());
        }
    }
    Err(DecodeError::At(Fault::Overlong, place))
}

/// The type of values that a byte is. None for a reference whose heap type stands behind.
#[tactic(auto, unfolding(crate::specs::Sections::type_of))]
fn type_of(byte: u8) -> Result<Option<CoreType>, Fault>
    ensures { result ≡ type_of byte }
{
    match byte {
        0x7f => Ok(Some(CoreType::I32)),
        0x7e => Ok(Some(CoreType::I64)),
        0x7d => Ok(Some(CoreType::F32)),
        0x7c => Ok(Some(CoreType::F64)),
        0x7b => Ok(Some(CoreType::V128)),
        0x69..=0x74 => Ok(Some(CoreType::Reference)),
        0x63 | 0x64 => Ok(None),
        byte => Err(Fault::UnknownByte(byte)),
    }
}

/// A type of values.
#[tactic(auto, unfolding(crate::specs::Sections::core_type))]
fn core_type(reader: &mut Reader<'_>) -> Result<CoreType, DecodeError>
    ensures reads { Answers (λ x. (x, reader.new.rest.now)) result
        ((core_type reader.old.end).read reader.old.rest.now) }
    ensures whole { reader.new.end ≡ reader.old.end }
{
    let place = reader.place();
    match type_of(reader.byte()?) {
        Ok(Some(ty)) => Ok(ty),
        Ok(None) => {
            skip_number(reader)?;
            Ok(CoreType::Reference)
        }
        Err(fault) => Err(DecodeError::At(fault, place)),
    }
}

/// One more type of values.
#[tactic(auto, unfolding(crate::specs::Sections::next_type))]
fn next_type(reader: &mut Reader<'_>, types: &mut Vec<CoreType>) -> Result<(), DecodeError>
    ensures reads { Answers (λ _. (types.new.items, reader.new.rest.now)) result
        ((next_type reader.old.end types.old.items).read reader.old.rest.now) }
    ensures whole { reader.new.end ≡ reader.old.end }
{
    types.push(core_type(reader)?)?;
    Ok(())
}

/// So many types of values.
fn so_many_types(
    alloc: Global,
    reader: &mut Reader<'_>,
    count: u32,
) -> Result<Vec<CoreType>, DecodeError>
    ensures reads { Answers (λ x. (x.items, reader.new.rest.now)) result
        ((repeat count (next_type reader.old.end) []).read reader.old.rest.now) }
    ensures whole { reader.new.end ≡ reader.old.end }
{
    let mut types = Vec::new(alloc);
    for _ in 0..count {
        next_type(reader, &mut types)?;
    }
    Ok(types)
}

/// Types of values, behind their count.
#[tactic(auto, unfolding(crate::specs::Sections::core_types))]
fn core_types(alloc: Global, reader: &mut Reader<'_>) -> Result<Vec<CoreType>, DecodeError>
    ensures reads { Answers (λ x. (x.items, reader.new.rest.now)) result
        ((core_types reader.old.end).read reader.old.rest.now) }
    ensures whole { reader.new.end ≡ reader.old.end }
{
    let count = reader.number()?;
    so_many_types(alloc, reader, count)
}

/// Limits of a table or a memory, which are not needed.
#[tactic(auto, unfolding(crate::specs::Sections::limits))]
fn skip_limits(reader: &mut Reader<'_>) -> Result<(), DecodeError>
    ensures reads { Answers (λ _. (0, reader.new.rest.now)) result
        ((limits reader.old.end).read reader.old.rest.now) }
    ensures whole { reader.new.end ≡ reader.old.end }
{
    let place = reader.place();
    let flags = reader.byte()?;
    if flags > 15 {
        return Err(DecodeError::At(Fault::UnknownByte(flags), place));
    }
    skip_number(reader)?;
    if flags % 2 == 1 {
        skip_number(reader)?;
    }
    if flags >= 8 {
        skip_number(reader)?;
    }
    Ok(())
}

/// What begins the type of a function.
#[tactic(auto, unfolding(crate::specs::Sections::function_mark))]
fn function_mark(byte: u8) -> Result<u8, Fault>
    ensures { result ≡ function_mark byte }
{
    match byte {
        0x60 => Ok(0),
        0x4e | 0x4f | 0x50 | 0x5e | 0x5f => Err(Fault::NotFunction),
        byte => Err(Fault::UnknownByte(byte)),
    }
}

/// A section's rank in the order of the format, from 1 on.
#[tactic(auto, unfolding(crate::specs::Sections::rank_of))]
fn rank_of(id: u8) -> Option<usize>
    ensures { result ≡ rank_of id }
{
    let rank = match id {
        1 => 1,
        2 => 2,
        3 => 3,
        4 => 4,
        5 => 5,
        13 => 6,
        6 => 7,
        7 => 8,
        8 => 9,
        9 => 10,
        12 => 11,
        10 => 12,
        11 => 13,
        _ => return None,
    };
    Some(rank)
}

impl<'a> ModuleReader<'a> {
    /// A type of functions.
    #[tactic(auto, unfolding(crate::specs::Sections::function_type), using(component_structure::proofs::Kept::map_pushed))]
    fn function_type(&mut self, reader: &mut Reader<'a>) -> Result<(), DecodeError>
        ensures reads { Answers (λ _. (reader_view self.new, reader.new.rest.now)) result
            ((function_type reader.old.end (reader_view self.old)).read reader.old.rest.now) }
        ensures whole { reader.new.end ≡ reader.old.end }
    {
        let place = reader.place();
        if let Err(fault) = function_mark(reader.byte()?) {
            return Err(DecodeError::At(fault, place));
        }
        let params = core_types(self.alloc, reader)?;
        let results = core_types(self.alloc, reader)?;
        self.read.types.push(FunctionType { params, results })?;
        Ok(())
    }

    fn types(&mut self, reader: &mut Reader<'a>, count: u32) -> Result<(), DecodeError>
        ensures reads { Answers (λ _. (reader_view self.new, reader.new.rest.now)) result
            ((repeat count (function_type reader.old.end) (reader_view self.old)).read reader.old.rest.now) }
        ensures whole { reader.new.end ≡ reader.old.end }
    {
        for _ in 0..count {
            self.function_type(reader)?;
        }
        Ok(())
    }

    /// The index of a function's type. The function takes the next index.
    #[tactic(auto, unfolding(crate::specs::Sections::function), using(component_structure::proofs::Kept::map_length))]
    fn function(&mut self, reader: &mut Reader<'a>) -> Result<Item, DecodeError>
        ensures reads { Answers (λ x. ((x, reader_view self.new), reader.new.rest.now)) result
            ((function reader.old.end (reader_view self.old)).read reader.old.rest.now) }
        ensures whole { reader.new.end ≡ reader.old.end }
    {
        let place = reader.place();
        let ty = reader.number()? as usize;
        if ty >= self.read.types.len() {
            return Err(DecodeError::At(Fault::BadIndex, place));
        }
        self.read.functions.push(ty)?;
        Ok(Item::Function(ty))
    }

    /// A table, which is not needed.
    fn table(&mut self, reader: &mut Reader<'a>) -> Result<Item, DecodeError>
        ensures reads { Answers (λ x. ((x, reader_view self.new), reader.new.rest.now)) result
            ((table reader.old.end (reader_view self.old)).read reader.old.rest.now) }
        ensures whole { reader.new.end ≡ reader.old.end }
    {
        core_type(reader)?;
        skip_limits(reader)?;
        Ok(Item::Table)
    }

    /// What an import is.
    #[tactic(auto, unfolding(crate::specs::Sections::imported))]
    fn imported(&mut self, reader: &mut Reader<'a>) -> Result<Item, DecodeError>
        ensures reads { Answers (λ x. ((x, reader_view self.new), reader.new.rest.now)) result
            ((imported reader.old.end (reader_view self.old)).read reader.old.rest.now) }
        ensures whole { reader.new.end ≡ reader.old.end }
    {
        let place = reader.place();
        match reader.byte()? {
            0 => self.function(reader),
            1 => self.table(reader),
            2 => {
                skip_limits(reader)?;
                Ok(Item::Memory)
            }
            3 => {
                core_type(reader)?;
                reader.byte()?;
                Ok(Item::Global)
            }
            4 => {
                reader.byte()?;
                reader.number()?;
                Ok(Item::Tag)
            }
            byte => Err(DecodeError::At(Fault::UnknownByte(byte), place)),
        }
    }

    /// An import.
    #[tactic(auto, unfolding(crate::specs::Sections::import_), using(component_structure::proofs::Kept::map_pushed))]
    fn import(&mut self, reader: &mut Reader<'a>) -> Result<(), DecodeError>
        ensures reads { Answers (λ _. (reader_view self.new, reader.new.rest.now)) result
            ((import_ reader.old.end (reader_view self.old)).read reader.old.rest.now) }
        ensures whole { reader.new.end ≡ reader.old.end }
    {
        let from = reader.name()?;
        let name = reader.name()?;
        let item = self.imported(reader)?;
        self.read.imports.push(Import { from, name, item })?;
        Ok(())
    }

    fn imports(&mut self, reader: &mut Reader<'a>, count: u32) -> Result<(), DecodeError>
        ensures reads { Answers (λ _. (reader_view self.new, reader.new.rest.now)) result
            ((repeat count (import_ reader.old.end) (reader_view self.old)).read reader.old.rest.now) }
        ensures whole { reader.new.end ≡ reader.old.end }
    {
        for _ in 0..count {
            self.import(reader)?;
        }
        Ok(())
    }

    /// A function of the module itself.
    #[tactic(auto, unfolding(crate::specs::Sections::own_function))]
    fn own_function(&mut self, reader: &mut Reader<'a>) -> Result<(), DecodeError>
        ensures reads { Answers (λ _. (reader_view self.new, reader.new.rest.now)) result
            ((own_function reader.old.end (reader_view self.old)).read reader.old.rest.now) }
        ensures whole { reader.new.end ≡ reader.old.end }
    {
        self.function(reader)?;
        Ok(())
    }

    fn functions(&mut self, reader: &mut Reader<'a>, count: u32) -> Result<(), DecodeError>
        ensures reads { Answers (λ _. (reader_view self.new, reader.new.rest.now)) result
            ((repeat count (own_function reader.old.end) (reader_view self.old)).read reader.old.rest.now) }
        ensures whole { reader.new.end ≡ reader.old.end }
    {
        for _ in 0..count {
            self.own_function(reader)?;
        }
        Ok(())
    }

    /// What an export of this sort and index is. Indices of what is no function are not followed.
    #[tactic(auto, unfolding(crate::specs::Sections::exported_of))]
    fn exported_of(&self, sort: u8, index: usize) -> Result<Item, Fault>
        ensures { result ≡ exported_of (module_view self.now.read) sort index }
    {
        match sort {
            0 => match self.read.functions.as_slice().get(index) {
                Some(ty) => Ok(Item::Function(*ty)),
                None => Err(Fault::BadIndex),
            },
            1 => Ok(Item::Table),
            2 => Ok(Item::Memory),
            3 => Ok(Item::Global),
            4 => Ok(Item::Tag),
            byte => Err(Fault::UnknownByte(byte)),
        }
    }

    /// What an export is.
    #[tactic(auto, unfolding(crate::specs::Sections::exported))]
    fn exported(&self, reader: &mut Reader<'a>) -> Result<Item, DecodeError>
        ensures reads { Answers (λ x. (x, reader.new.rest.now)) result
            ((exported reader.old.end (module_view self.now.read)).read reader.old.rest.now) }
        ensures whole { reader.new.end ≡ reader.old.end }
    {
        let place = reader.place();
        let sort = reader.byte()?;
        let index = reader.number()? as usize;
        match self.exported_of(sort, index) {
            Ok(item) => Ok(item),
            Err(fault) => Err(DecodeError::At(fault, place)),
        }
    }

    /// An export. Its name differs from the others.
    #[tactic(auto, unfolding(crate::specs::Sections::export))]
    fn export(&mut self, reader: &mut Reader<'a>) -> Result<(), DecodeError>
        ensures reads { Answers (λ _. (reader_view self.new, reader.new.rest.now)) result
            ((export reader.old.end (reader_view self.old)).read reader.old.rest.now) }
        ensures whole { reader.new.end ≡ reader.old.end }
    {
        let place = reader.place();
        let name = reader.name()?;
        let item = self.exported(reader)?;
        if self.read.exported(name).is_some() {
            return Err(DecodeError::At(Fault::NameTwice, place));
        }
        self.read.export(self.alloc, name, item)?;
        Ok(())
    }

    fn exports(&mut self, reader: &mut Reader<'a>, count: u32) -> Result<(), DecodeError>
        ensures reads { Answers (λ _. (reader_view self.new, reader.new.rest.now)) result
            ((repeat count (export reader.old.end) (reader_view self.old)).read reader.old.rest.now) }
        ensures whole { reader.new.end ≡ reader.old.end }
    {
        for _ in 0..count {
            self.export(reader)?;
        }
        Ok(())
    }

    /// The content of a custom section.
    #[tactic(auto, using(component_structure::proofs::Kept::map_pushed))]
    fn custom(&mut self, mut content: Reader<'a>) -> Result<(), DecodeError>
        ensures { Answers (λ _. reader_view self.new) result
            (custom_content content.entry.end (reader_view self.old) content.entry.rest.now) }
    {
        let name = content.name()?;
        let content = content.rest();
        self.read.customs.push(Custom { name, content })?;
        Ok(())
    }

    /// Passes a section's rank.
    fn pass(&mut self, id: u8, place: usize) -> Result<(), DecodeError>
        ensures { Answers (λ _. reader_view self.new) result (ranked place id (reader_view self.old) (rank_of id)) }
    {
        let Some(rank) = rank_of(id) else {
            return Err(DecodeError::At(Fault::UnknownByte(id), place));
        };
        if rank <= self.passed {
            return Err(DecodeError::At(Fault::SectionOrder, place));
        }
        self.passed = rank;
        Ok(())
    }

    /// The content of a section of this number. Of most nothing is read.
    #[tactic(auto, unfolding(crate::specs::Sections::known_content))]
    fn known(&mut self, id: u8, mut content: Reader<'a>) -> Result<(), DecodeError>
        ensures { Answers (λ _. reader_view self.new) result
            (known_content id content.entry.end (reader_view self.old) content.entry.rest.now) }
    {
        match id {
            TYPES => {
                let count = content.number()?;
                self.types(&mut content, count)?;
            }
            IMPORTS => {
                let count = content.number()?;
                self.imports(&mut content, count)?;
            }
            FUNCTIONS => {
                let count = content.number()?;
                self.functions(&mut content, count)?;
            }
            EXPORTS => {
                let count = content.number()?;
                self.exports(&mut content, count)?;
            }
            _ => return Ok(()),
        }
        content.finish()
    }

    /// The content of a section of this number at this offset.
    #[tactic(auto, unfolding(crate::specs::Sections::section_content))]
    fn content(&mut self, place: usize, id: u8, content: Reader<'a>) -> Result<(), DecodeError>
        ensures { Answers (λ _. reader_view self.new) result
            (section_content place id content.entry.end (reader_view self.old) content.entry.rest.now) }
    {
        if id == CUSTOM {
            return self.custom(content);
        }
        self.pass(id, place)?;
        self.known(id, content)
    }

    /// A section.
    #[tactic(auto, unfolding(crate::specs::Sections::section))]
    fn section(&mut self, reader: &mut Reader<'a>) -> Result<(), DecodeError>
        ensures reads { Answers (λ _. (reader_view self.new, reader.new.rest.now)) result
            ((section reader.old.end (reader_view self.old)).read reader.old.rest.now) }
        ensures whole { reader.new.end ≡ reader.old.end }
    {
        let place = reader.place();
        let id = reader.byte()?;
        let content = reader.part()?;
        self.content(place, id, content)
    }
}

/// What the sections of a module have.
fn sections(alloc: Global, reader: Reader<'_>) -> Result<ModuleReader<'_>, DecodeError>
    ensures { Answers reader_view result (front (sections reader.entry.end reader.entry.rest.now)) }
{
    let mut module = ModuleReader {
        alloc,
        read: CoreModule::new(alloc),
        passed: 0,
    };
    let mut left = reader;
    for _ in 0..reader.rest().len() {
        if left.is_empty() {
            break;
        }
        module.section(&mut left)?;
    }
    Ok(module)
}

/// What a core module declares. Its sections have to be in the order of the format, each once at most, and its types
/// have to be those of functions. The code, the data and what is defined of tables, memories and globals are not read.
#[tactic(auto, unfolding(crate::specs::Sections::declared_by))]
pub fn read_module(alloc: Global, bytes: &[u8]) -> Result<CoreModule<'_>, DecodeError>
    ensures { Answers module_view result (declared_by bytes.now) }
{
    let mut reader = Reader::new(bytes);
    if !bytes.starts_with(PREAMBLE.as_slice()) {
        return Err(DecodeError::At(Fault::NotModule, 0));
    }
    reader.bytes(PREAMBLE.len())?;
    let module = sections(alloc, reader)?;
    Ok(module.read)
}
