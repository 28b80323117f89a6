//! Nodes of a tree.

/// What a node is.
#[derive(Clone, Copy, Debug, PartialEq, Eq)]
pub enum NodeKind {
    /// A whole file.
    File,
    /// `package a:b@1.0.0;`
    Package,
    /// `package a:b { .. }`
    NestedPackage,
    /// A package's name, with its version.
    PackageName,
    /// `interface a { .. }`
    Interface,
    /// `world a { .. }`
    World,
    /// `use p;` outside interfaces and worlds.
    TopUse,
    /// `use p.{ .. };`
    Use,
    /// `import a: func();` or `import p;`
    Import,
    /// `export a: func();` or `export p;`
    Export,
    /// `include p;`
    Include,
    /// The interface that a world has in place of a path.
    InlineInterface,
    /// `type a = t;`
    Alias,
    /// `record a { .. }`
    Record,
    /// `variant a { .. }`
    Variant,
    /// `enum a { .. }`
    Enum,
    /// `flags a { .. }`
    Flags,
    /// `resource a { .. }`
    Resource,
    /// A function of an interface, a resource or a world.
    Function,
    /// `constructor( .. );`
    Constructor,
    /// `@since(..)`, `@unstable(..)` or `@deprecated(..)`.
    Gate,
    /// A path to an interface or a world.
    Path,
    /// A name where it is declared.
    Name,
    /// A name where it is used.
    NameUse,
    /// A field of a record, with its type.
    Field,
    /// A case of a variant, with its type if it has one.
    Case,
    /// A case of an enum, or one of the flags.
    Label,
    /// A name in the braces of a `use`, with its own name if it has one.
    UsedName,
    /// A name in the braces of an `include`, with its new name.
    Renaming,
    /// What is between the parentheses of a function.
    Parameters,
    /// A parameter or a named result, with its type.
    Parameter,
    /// The results of a function that have names.
    NamedResults,
    /// What is between braces.
    Body,
    /// A type that is a word.
    Type,
    /// A type with parts between `<` and `>`.
    TypeOf,
    /// What could not be read.
    Skipped,
}

/// A node: the tokens `from..to` that it covers, by their indices, and how many nodes are in it. These are right before
/// it.
#[derive(Clone, Copy)]
pub struct Node {
    pub kind: NodeKind,
    pub from: usize,
    pub to: usize,
    pub inside: usize,
}

/// A node that is open: its first token, and how many nodes there were before it.
#[derive(Clone, Copy)]
pub struct OpenNode {
    pub from: usize,
    pub before: usize,
}
