//! Component types and instance types: their declarations, each of which may take an index. (Binary.md)
ghost use Rattle.std.specs.Prelude.{◌≡◌, ◌-◌, ◌<◌, [], length, true, IfOk, OnOk};
ghost use Rattle.ctype_format.specs.File.{max_scope_depth};
ghost use Rattle.ctype_format.specs.Grammar.{is_nested, is_component};
ghost use Rattle.std.specs.String.{string_bytes};
ghost use Rattle.component_structure.specs.Bytes.{Answers, extern_view, name_text};
ghost use Rattle.component_structure.specs.Parts.{scope_view, structure_view, item_view, new_scope};
ghost use Rattle.component_decoding.specs.Declarations.{nothing_read, decoder_view, with_begun, pushed, function_entry};
ghost use Rattle.component_decoding.specs.Declarations.{plain_type, outward, entry_in, around_view, outer_alias};
ghost use Rattle.component_decoding.specs.Declarations.{exports_type, instance_alias, alias, label_at};
ghost use Rattle.component_decoding.specs.Declarations.{entry_at, entry_from};
ghost use Rattle.component_decoding.specs.Declarations.{function_item, component_item, instance_item};
ghost use Rattle.component_decoding.specs.Declarations.{with_named, type_item};
ghost use Rattle.component_decoding.specs.Declarations.{described, external, declaration, with_scope};
ghost use Rattle.component_decoding.specs.Declarations.{nested_type, type};
ghost use Rattle.component_decoding.specs.Declarations.{opcode, scope_entry};

use atoms::Label;
use component_structure::{
    DecodeError, Definition, DefinitionId, Entry, Extern, Fault, Feature, FunctionId, Instance,
    InstanceId, Named, NamedId, Reader, Scope, ScopeId, Structure, Types, Used, UsedId, ValType,
    What, type_fault,
};
use ctype_format::{ExternName, Opcode, is_nested, opcode_of};
use std::alloc::{AllocError, Global};
use tables::Direction;

/// How many component types and instance types may stand within one another.
const MAX_DEPTH: u32 = 4;

/// How many type indices all scopes together may have.
const MAX_TYPES: usize = 65_535;

/// What is read so far.
#[derive(Drop)]
pub struct Decoder {
    pub alloc: Global,
    pub structure: Structure,
    /// How many scopes began.
    scopes: usize,
    /// How many type indices all scopes have.
    types: usize,
}

/// The scopes around one, the innermost last, and how many more may stand in it.
#[derive(Clone, Copy)]
pub struct Around<'a> {
    scopes: &'a [&'a Scope],
    room: u32,
}

impl Around<'_> {
    /// No scopes: what a file stands in.
    pub fn nothing() -> Around<'static>
        ensures room { result.room ≡ max_scope_depth }
        ensures scopes { around_view result ≡ [] }
    {
        Around {
            scopes: &[],
            room: MAX_DEPTH,
        }
    }
}

/// The text of a name.
fn text_of(alloc: Global, name: &ExternName) -> Result<String, AllocError>
    ensures { IfOk result (λ text. string_bytes text ≡ name_text (extern_view name.now)) }
{
    match name {
        ExternName::Label(label) => String::from_str(alloc, label.as_str()),
        ExternName::FullName(name) => name.text(alloc),
    }
}

/// The label that a name is.
pub fn label_of(name: ExternName, place: usize) -> Result<Label, DecodeError>
    ensures { result ≡ label_at place (extern_view name) }
{
    match name {
        ExternName::Label(label) => Ok(label),
        ExternName::FullName(_) => Err(DecodeError::At(Fault::NotLabel, place)),
    }
}

/// The first byte of a type, if so many more scopes may stand here.
#[tactic(auto, unfolding(crate::specs::Declarations::opcode))]
fn type_opcode(reader: &mut Reader<'_>, room: u32) -> Result<Opcode, DecodeError>
    ensures reads { Answers (λ x. (x, reader.new.rest.now)) result
        ((opcode room reader.old.end).read reader.old.rest.now) }
    ensures nested { IfOk result (λ x. is_nested x ≡ true → 0 < room) }
    ensures whole { reader.new.end ≡ reader.old.end }
{
    let place = reader.place();
    let byte = reader.byte()?;
    match opcode_of(byte) {
        None => Err(DecodeError::At(type_fault(byte), place)),
        Some(opcode) if is_nested(opcode) && room == 0 => {
            Err(DecodeError::At(Fault::Limit, place))
        }
        Some(opcode) => Ok(opcode),
    }
}

fn is_component(opcode: Opcode) -> bool
    ensures { result ≡ is_component opcode }
{
    matches!(opcode, Opcode::Component)
}

/// What the index of a scope with this opcode stands for.
fn scope_entry(opcode: Opcode, id: ScopeId) -> Entry
    ensures { result ≡ scope_entry opcode id.0 }
{
    match opcode {
        Opcode::Component => Entry::Component(id),
        _ => Entry::Instance(id),
    }
}

/// The type at an index of the scope that so many scopes stand inside of; 0 is the own one.
#[tactic(auto, using(component_structure::proofs::Kept::get_mapped, component_structure::proofs::Kept::map_length))]
fn outer_entry(around: Around<'_>, own: &Scope, count: u32, index: u32) -> Option<Entry>
    ensures { result ≡ entry_in (outward (around_view around.entry) own.now.types.items count) index }
{
    let scope = match count {
        0 => own,
        _ => {
            let place = around.scopes.len().checked_sub(count as usize)?;
            around.scopes.get(place)?
        }
    };
    scope.types.as_slice().get(index as usize).copied()
}

/// A type in a scope around, behind the alias's second byte.
#[tactic(auto, unfolding(crate::specs::Declarations::outer_alias))]
fn outer_alias(
    reader: &mut Reader<'_>,
    around: Around<'_>,
    own: &Scope,
) -> Result<Entry, DecodeError>
    ensures reads { Answers (λ e. (e, reader.new.rest.now)) result
        ((outer_alias reader.old.end (around_view around.entry) own.now.types.items).read reader.old.rest.now) }
    ensures whole { reader.new.end ≡ reader.old.end }
{
    let place = reader.place();
    let count = reader.number()?;
    let index = reader.number()?;
    match outer_entry(around, own, count, index) {
        Some(entry) => Ok(entry),
        None => Err(DecodeError::At(Fault::BadIndex, place)),
    }
}

impl Decoder {
    /// Nothing.
    pub fn new(alloc: Global) -> Decoder
        ensures { decoder_view result ≡ nothing_read }
    {
        Decoder {
            alloc,
            structure: Structure::new(alloc),
            scopes: 0,
            types: 0,
        }
    }

    /// A scope that begins.
    pub fn new_scope(&mut self) -> Scope
        ensures scope { scope_view result ≡ new_scope (decoder_view self.old).begun }
        ensures begun { decoder_view self.new ≡ with_begun (decoder_view self.old) }
    {
        let number = self.scopes;
        self.scopes = number.saturating_add(1);
        Scope::new(self.alloc, number)
    }

    /// Gives a type the next index of a scope.
    pub fn push_type(
        &mut self,
        scope: &mut Scope,
        entry: Entry,
        place: usize,
    ) -> Result<(), DecodeError>
        ensures { Answers (λ _. (scope_view scope.new, decoder_view self.new)) result
            (pushed place entry (scope_view scope.old, decoder_view self.old)) }
    {
        if self.types >= MAX_TYPES {
            return Err(DecodeError::At(Fault::Limit, place));
        }
        self.types += 1;
        scope.types.push(entry)?;
        Ok(())
    }

    /// Keeps a scope that ended.
    #[tactic(auto, using(component_structure::proofs::Kept::map_pushed, component_structure::proofs::Kept::map_length))]
    fn keep(&mut self, scope: Scope) -> Result<ScopeId, AllocError>
        ensures id { IfOk result (λ id. id.0 ≡ length (decoder_view self.old).parts.scopes) }
        ensures kept { OnOk result (decoder_view self.new ≡ with_scope (scope_view scope, decoder_view self.old)) }
    {
        let id = ScopeId(self.structure.scopes.len());
        self.structure.scopes.push(scope)?;
        Ok(id)
    }

    /// Keeps a function's type.
    #[tactic(auto, using(component_structure::proofs::Kept::map_pushed, component_structure::proofs::Kept::map_length))]
    fn keep_function(&mut self, reader: &mut Reader<'_>, own: &Scope) -> Result<Entry, DecodeError>
        ensures reads { Answers (λ e. ((e, decoder_view self.new), reader.new.rest.now)) result
            ((function_entry reader.old.end (scope_view own.now) (decoder_view self.old)).read reader.old.rest.now) }
        ensures whole { reader.new.end ≡ reader.old.end }
    {
        let types = Types {
            alloc: self.alloc,
            scope: own,
        };
        let id = FunctionId(self.structure.functions.len());
        self.structure.functions.push(types.function(reader)?)?;
        Ok(Entry::Function(id))
    }

    /// A type without scopes, behind its opcode.
    #[tactic(auto, unfolding(crate::specs::Declarations::plain_type), using(component_structure::proofs::Kept::map_pushed, component_structure::proofs::Kept::map_length),)]
    fn plain_type(
        &mut self,
        reader: &mut Reader<'_>,
        own: &Scope,
        opcode: Opcode,
    ) -> Result<Entry, DecodeError>
        ensures reads { Answers (λ e. ((e, decoder_view self.new), reader.new.rest.now)) result
            ((plain_type reader.old.end (scope_view own.now) (decoder_view self.old) opcode).read reader.old.rest.now) }
        ensures whole { reader.new.end ≡ reader.old.end }
    {
        if let Opcode::Primitive(primitive) = opcode {
            return Ok(Entry::Value(ValType::Primitive(primitive)));
        }
        let types = Types {
            alloc: self.alloc,
            scope: own,
        };
        match types.kind(reader, opcode)? {
            Some(kind) => {
                let id = DefinitionId(self.structure.definitions.len());
                self.structure.definitions.push(Definition {
                    scope: own.number,
                    kind,
                })?;
                Ok(Entry::Value(ValType::Defined(id)))
            }
            None => self.keep_function(reader, own),
        }
    }

    /// A type.
    #[cycle(types)]
    pub fn type_entry(
        &mut self,
        reader: &mut Reader<'_>,
        around: Around<'_>,
        own: &Scope,
    ) -> Result<Entry, DecodeError>
        ensures reads { Answers (λ e. ((e, decoder_view self.new), reader.new.rest.now)) result
            ((type around.entry.room reader.old.end (around_view around.entry) (scope_view own.now)
            (decoder_view self.old)).read reader.old.rest.now) }
        ensures whole { reader.new.end ≡ reader.old.end }
    {
        let opcode = type_opcode(reader, around.room)?;
        if is_nested(opcode) {
            let mut scopes = Vec::from_slice(self.alloc, around.scopes)?;
            scopes.push(own)?;
            let around = Around {
                scopes: scopes.as_slice(),
                room: around.room - 1,
            };
            return self.nested_type(reader, around, opcode);
        }
        self.plain_type(reader, own, opcode)
    }

    /// A component type or an instance type, behind its opcode.
    #[cycle(types)]
    #[tactic(auto, unfolding(crate::specs::Declarations::nested_type))]
    fn nested_type(
        &mut self,
        reader: &mut Reader<'_>,
        around: Around<'_>,
        opcode: Opcode,
    ) -> Result<Entry, DecodeError>
        ensures reads { Answers (λ e. ((e, decoder_view self.new), reader.new.rest.now)) result
            ((nested_type (type around.entry.room) opcode reader.old.end (around_view around.entry)
            (decoder_view self.old)).read reader.old.rest.now) }
        ensures whole { reader.new.end ≡ reader.old.end }
    {
        let is_component = is_component(opcode);
        let count = reader.number()?;
        let mut own = self.new_scope();
        for _ in 0..count {
            self.declaration(reader, around, &mut own, is_component)?;
        }
        let id = self.keep(own)?;
        Ok(scope_entry(opcode, id))
    }

    /// A declaration. Imports stand in component types alone.
    #[cycle(types)]
    #[tactic(auto, unfolding(crate::specs::Declarations::declaration))]
    fn declaration(
        &mut self,
        reader: &mut Reader<'_>,
        around: Around<'_>,
        own: &mut Scope,
        is_component: bool,
    ) -> Result<(), DecodeError>
        ensures reads { Answers (λ _. ((scope_view own.new, decoder_view self.new), reader.new.rest.now)) result
            ((declaration (type around.entry.room) is_component reader.old.end (around_view around.entry)
            (scope_view own.old, decoder_view self.old)).read reader.old.rest.now) }
        ensures whole { reader.new.end ≡ reader.old.end }
    {
        let place = reader.place();
        match reader.byte()? {
            0 => Err(DecodeError::At(Fault::Outside(Feature::CoreType), place)),
            1 => {
                let entry = self.type_entry(reader, around, own)?;
                self.push_type(own, entry, place)
            }
            2 => {
                let entry = self.alias(reader, around, own)?;
                self.push_type(own, entry, place)
            }
            3 if is_component => self.external(reader, own, Direction::Import),
            4 => self.external(reader, own, Direction::Export),
            byte => Err(DecodeError::At(Fault::UnknownByte(byte), place)),
        }
    }

    /// An alias of a type, behind its first byte.
    #[tactic(auto, unfolding(crate::specs::Declarations::alias))]
    fn alias(
        &mut self,
        reader: &mut Reader<'_>,
        around: Around<'_>,
        own: &Scope,
    ) -> Result<Entry, DecodeError>
        ensures reads { Answers (λ e. ((e, decoder_view self.new), reader.new.rest.now)) result
            ((alias reader.old.end (around_view around.entry) (scope_view own.now) (decoder_view self.old)).read
            reader.old.rest.now) }
        ensures whole { reader.new.end ≡ reader.old.end }
    {
        let place = reader.place();
        let sort = reader.byte()?;
        if sort != 3 {
            return Err(DecodeError::At(Fault::UnknownByte(sort), place));
        }
        let place = reader.place();
        match reader.byte()? {
            0 => self.alias_of_instance(reader, own),
            2 => outer_alias(reader, around, own),
            byte => Err(DecodeError::At(Fault::UnknownByte(byte), place)),
        }
    }

    /// Whether an instance exports a type of this name.
    fn has_type(&self, instance: InstanceId, name: &str) -> bool
        ensures { result ≡ exports_type (structure_view self.now.structure) instance name.now }
    {
        let structure = &self.structure;
        let Some(instance) = structure.instances.as_slice().get(instance.0) else {
            return false;
        };
        match structure.scopes.as_slice().get(instance.scope.0) {
            Some(scope) => scope.exported_types.contains_key(name),
            None => false,
        }
    }

    /// The type that an instance of the scope exports under a name.
    #[tactic(auto, unfolding(crate::specs::Declarations::instance_alias))]
    fn alias_of_instance(
        &mut self,
        reader: &mut Reader<'_>,
        own: &Scope,
    ) -> Result<Entry, DecodeError>
        ensures reads { Answers (λ e. ((e, decoder_view self.new), reader.new.rest.now)) result
            ((instance_alias reader.old.end (scope_view own.now) (decoder_view self.old)).read reader.old.rest.now) }
        ensures whole { reader.new.end ≡ reader.old.end }
    {
        let place = reader.place();
        let index = reader.number()?;
        let Some(instance) = own.instances.as_slice().get(index as usize) else {
            return Err(DecodeError::At(Fault::BadIndex, place));
        };
        let instance = *instance;
        let place = reader.place();
        let name = reader.label(self.alloc)?;
        if !self.has_type(instance, name.as_str()) {
            return Err(DecodeError::At(Fault::NoSuchType, place));
        }
        let id = UsedId(self.structure.used.len());
        self.structure.used.push(Used { instance, name })?;
        Ok(Entry::Value(ValType::Used(id)))
    }

    /// An import or an export, behind its first byte.
    #[tactic(auto, unfolding(crate::specs::Declarations::external), using(component_structure::proofs::Kept::map_pushed, component_structure::proofs::Kept::map_length),)]
    fn external(
        &mut self,
        reader: &mut Reader<'_>,
        own: &mut Scope,
        direction: Direction,
    ) -> Result<(), DecodeError>
        ensures reads { Answers (λ _. ((scope_view own.new, decoder_view self.new), reader.new.rest.now)) result
            ((external reader.old.end direction (scope_view own.old, decoder_view self.old)).read reader.old.rest.now) }
        ensures whole { reader.new.end ≡ reader.old.end }
    {
        let place = reader.place();
        let name = reader.extern_name(self.alloc)?;
        let text = text_of(self.alloc, &name)?;
        if !own.note_name(direction, text.as_str())? {
            return Err(DecodeError::At(Fault::NameTwice, place));
        }
        let head = Head {
            place,
            direction,
            name,
        };
        let what = self.described(reader, own, head)?;
        own.externs.push(Extern {
            place,
            direction,
            what,
        })?;
        Ok(())
    }

    /// What an import or an export of a name is.
    #[tactic(auto, unfolding(crate::specs::Declarations::described))]
    fn described(
        &mut self,
        reader: &mut Reader<'_>,
        own: &mut Scope,
        head: Head,
    ) -> Result<What, DecodeError>
        ensures reads { Answers
            (λ x. ((item_view x, (scope_view own.new, decoder_view self.new)), reader.new.rest.now)) result
            ((described reader.old.end head.place head.direction (extern_view head.name)
            (scope_view own.old, decoder_view self.old)).read reader.old.rest.now) }
        ensures whole { reader.new.end ≡ reader.old.end }
    {
        let place = reader.place();
        match reader.byte()? {
            0 => Err(DecodeError::At(Fault::Outside(Feature::CoreModule), place)),
            1 => self.function(reader, own, head),
            2 => Err(DecodeError::At(Fault::Outside(Feature::Value), place)),
            3 => self.equal_type(reader, own, head),
            4 => self.component(reader, own, head),
            5 => self.instance(reader, own, head),
            byte => Err(DecodeError::At(Fault::UnknownByte(byte), place)),
        }
    }

    /// A function of the type at an index.
    #[tactic(auto, unfolding(crate::specs::Declarations::function_item))]
    fn function(
        &self,
        reader: &mut Reader<'_>,
        own: &Scope,
        head: Head,
    ) -> Result<What, DecodeError>
        ensures reads { Answers
            (λ x. ((item_view x, (scope_view own.now, decoder_view self.now)), reader.new.rest.now)) result
            ((function_item reader.old.end head.place (extern_view head.name)
            (scope_view own.now, decoder_view self.now)).read reader.old.rest.now) }
        ensures whole { reader.new.end ≡ reader.old.end }
    {
        match entry_at(reader, own)? {
            (Entry::Function(ty), _) => Ok(What::Function {
                name: label_of(head.name, head.place)?,
                ty,
            }),
            (_, place) => Err(DecodeError::At(Fault::WrongSort, place)),
        }
    }

    /// Keeps a type with a name, which is equal to another one.
    fn keep_named(
        &mut self,
        own: &mut Scope,
        direction: Direction,
        name: Label,
        target: ValType,
    ) -> Result<NamedId, AllocError>
        ensures id { IfOk result (λ id. id.0 ≡ length self.old.structure.named.items) }
        ensures kept { OnOk result ((scope_view own.new, decoder_view self.new)
            ≡ with_named direction name target (scope_view own.old, decoder_view self.old)) }
    {
        let id = NamedId(self.structure.named.len());
        if direction == Direction::Export {
            own.export_type(self.alloc, name.as_str(), id)?;
        }
        self.structure.named.push(Named {
            scope: own.number,
            name,
            target,
        })?;
        Ok(id)
    }

    /// A type that is equal to the one at an index. It takes an index too.
    #[tactic(auto, unfolding(crate::specs::Declarations::type_item))]
    fn equal_type(
        &mut self,
        reader: &mut Reader<'_>,
        own: &mut Scope,
        head: Head,
    ) -> Result<What, DecodeError>
        ensures reads { Answers
            (λ x. ((item_view x, (scope_view own.new, decoder_view self.new)), reader.new.rest.now)) result
            ((type_item reader.old.end head.place head.direction (extern_view head.name)
            (scope_view own.old, decoder_view self.old)).read reader.old.rest.now) }
        ensures whole { reader.new.end ≡ reader.old.end }
    {
        let place = reader.place();
        match reader.byte()? {
            0 => {}
            1 => return Err(DecodeError::At(Fault::Outside(Feature::Resource), place)),
            byte => return Err(DecodeError::At(Fault::UnknownByte(byte), place)),
        }
        let (Entry::Value(target), place) = entry_at(reader, own)? else {
            return Err(DecodeError::At(Fault::WrongSort, place));
        };
        let name = label_of(head.name, head.place)?;
        let id = self.keep_named(own, head.direction, name, target)?;
        self.push_type(own, Entry::Value(ValType::Named(id)), place)?;
        Ok(What::Type(id))
    }

    /// A component of the type at an index.
    #[tactic(auto, unfolding(crate::specs::Declarations::component_item))]
    fn component(
        &self,
        reader: &mut Reader<'_>,
        own: &Scope,
        head: Head,
    ) -> Result<What, DecodeError>
        ensures reads { Answers
            (λ x. ((item_view x, (scope_view own.now, decoder_view self.now)), reader.new.rest.now)) result
            ((component_item reader.old.end (extern_view head.name)
            (scope_view own.now, decoder_view self.now)).read reader.old.rest.now) }
        ensures whole { reader.new.end ≡ reader.old.end }
    {
        match entry_at(reader, own)? {
            (Entry::Component(scope), _) => Ok(What::Component {
                name: head.name,
                scope,
            }),
            (_, place) => Err(DecodeError::At(Fault::WrongSort, place)),
        }
    }

    /// An instance of the type at an index. It takes an index of its own.
    #[tactic(auto, unfolding(crate::specs::Declarations::instance_item), using(component_structure::proofs::Kept::map_pushed, component_structure::proofs::Kept::map_length),)]
    fn instance(
        &mut self,
        reader: &mut Reader<'_>,
        own: &mut Scope,
        head: Head,
    ) -> Result<What, DecodeError>
        ensures reads { Answers
            (λ x. ((item_view x, (scope_view own.new, decoder_view self.new)), reader.new.rest.now)) result
            ((instance_item reader.old.end head.place head.direction (extern_view head.name)
            (scope_view own.old, decoder_view self.old)).read reader.old.rest.now) }
        ensures whole { reader.new.end ≡ reader.old.end }
    {
        let (Entry::Instance(scope), _) = entry_at(reader, own)? else {
            return Err(DecodeError::At(Fault::WrongSort, head.place));
        };
        let id = InstanceId(self.structure.instances.len());
        self.structure.instances.push(Instance {
            direction: head.direction,
            name: head.name,
            scope,
        })?;
        own.instances.push(id)?;
        Ok(What::Instance(id))
    }
}

/// The name of an import or an export.
#[derive(Drop)]
struct Head {
    place: usize,
    direction: Direction,
    name: ExternName,
}

/// The type at an index that stands next, and the index's offset.
pub fn entry_at(reader: &mut Reader<'_>, own: &Scope) -> Result<(Entry, usize), DecodeError>
    ensures reads { Answers (λ x. (x.0, reader.new.rest.now)) result
        ((entry_at reader.old.end own.now.types.items).read reader.old.rest.now) }
    ensures place { IfOk result (λ x. x.1 ≡ reader.old.end - length reader.old.rest.now) }
    ensures whole { reader.new.end ≡ reader.old.end }
{
    let place = reader.place();
    let index = reader.number()?;
    match own.types.as_slice().get(index as usize) {
        Some(entry) => Ok((*entry, place)),
        None => Err(DecodeError::At(Fault::BadIndex, place)),
    }
}
