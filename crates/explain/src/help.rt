//! Help and version.

use std::alloc::{AllocError, Global};

/// The program and its version.
pub static VERSION: &str = "wit-explain 0.3.0+next\n";

static PROGRAM: &str = "\
wit-explain: faults of WIT files with lines, pictures of types, calls step by step, and bindings for C, TypeScript and Python

usage: wit-explain check [--json] PATH..
       wit-explain format [--check] PATH..
       wit-explain show [--json] PATH..
       wit-explain text PATH..
       wit-explain bin -o FILE PATH..
       wit-explain encode [--world NAME] -o FILE PATH..
       wit-explain embed MODULE --world NAME -o FILE PATH..
       wit-explain decode FILE
       wit-explain layout [--svg FILE] PATH [NAME]
       wit-explain layout --json PATH..
       wit-explain diff OLD NEW
       wit-explain call [--svg FILE] PATH INTERFACE FUNCTION ARGUMENTS [ANSWER]
       wit-explain bind c|ts|python PATH..
       wit-explain bind guest [--world NAME] PATH..
       wit-explain COMMAND --help
       wit-explain --help | --version

A PATH is a file, a folder with `.wit` files and its dependencies in `deps`, or `-` for standard input. A file is a text
or a binary: a package or a world as other tools write it, or a module that carries a world.
--color auto|always|never says when faults are colored. `auto` is if standard output is a terminal and the environment
variable NO_COLOR is empty or not set. No word after `--` is an option. `-h` is `--help`, and so is `help COMMAND`.
Exit status: 0 if all is well, 1 after a fault or a trap, 2 if the words are no command.
";

const CHECK: &str = "\
usage: wit-explain check [--json] [--color WHEN] PATH..

Checks the packages of these files, each after those that it depends on. Prints the faults of each file, or, if its
text has none, those of its names, at most 20: the file, line and column, the error's number and words, the line with
the place marked, and a hint. Behind a fault, the file is read on at its next item. Prints nothing if all is well.
With --json, prints the faults as an array of objects.
";

const FORMAT: &str = "\
usage: wit-explain format [--check] [--color WHEN] PATH..

Lays out these files and those of these folders, without their `deps`: two spaces a level, an item on each line, and a
function or a list in one line if it has room in 100 columns. Words and comments stay as they are, with their bytes.
Writes each file whose text changes, and prints its name. A file with a fault of syntax stays as it is: its faults are
printed as `check` prints them. What is read from standard input is printed in its layout.
With --check, writes no file, prints the names of those that would change, and the status is 1 if there are any.
";

const SHOW: &str = "\
usage: wit-explain show [--json] [--color WHEN] PATH..

Prints what each package of these files has: its name, and for each interface and each world how many names, types and
functions. Dependencies are read and not shown. The lines are those of `witcall show`.
With --json, prints one document of all interfaces, worlds, types, functions and layouts, dependencies too. Of several
packages it is of the last that is no dependency. docs/package.schema.json is its schema.
";

const TEXT: &str = "\
usage: wit-explain text [--color WHEN] PATH..

Prints the package of these files as one canonical text, as `witcall text` does, with its comments that begin with
`///` or `/**`. Of several packages it is the last that is no dependency.
";

const BIN: &str = "\
usage: wit-explain bin [--color WHEN] -o FILE PATH..

Writes the package of these files to FILE as a binary, as `witcall bin` does. Of several packages it is the last that is
no dependency. --output FILE is the same.
";

const ENCODE: &str = "\
usage: wit-explain encode [--world NAME] [--color WHEN] -o FILE PATH..

Writes the package of these files to FILE as wit-component encodes it: what wasm-tools reads in place of WIT text. With
--world, writes that world alone, as wit-bindgen puts it into the section `component-type` of a module. Of several
packages it is the last that is no dependency. --output FILE is the same as -o FILE.
";

const EMBED: &str = "\
usage: wit-explain embed MODULE --world NAME [--color WHEN] -o FILE PATH..

Writes the core module MODULE to FILE with a section `component-type:NAME` of a world of these files behind it, if the
module fits that world. If not, prints each export that is missing, and each export and import of another core signature
than the Canonical ABI has. A module that has the same section already stays as it is; one with another is refused. Of
several packages it is the last that is no dependency. --output FILE is the same as -o FILE.
";

const DECODE: &str = "\
usage: wit-explain decode [--color WHEN] FILE

Prints the packages of a binary that another tool wrote, each as one canonical text, after those that it depends on.
FILE is a package as wasm-tools writes it in place of WIT text, a world as wit-bindgen puts it into the section
`component-type` of a module, or a module with such a section; `-` is standard input. Packages that the one of FILE
depends on have no more than what is used of them.
";

const LAYOUT: &str = "\
usage: wit-explain layout [--svg FILE] [--color WHEN] PATH [NAME]

Draws the bytes of the types of these files to scale: fields, padding, and the cases of a variant one below the other,
with all offsets, sizes and alignments and the flat core values. Each function has its two core signatures. With NAME,
draws the types and functions of this name alone, and of a function what it has in memory: its record of parameters, its
return area, and what allocators are asked for. Dependencies are read, and only those of their types drawn that are
used. With --svg, writes the pictures to FILE as SVG, or to standard output if FILE is `-`. With --json, prints the
document of `show --json`.
";

const DIFF: &str = "\
usage: wit-explain diff [--color WHEN] OLD NEW

Tells what changed from the package of the path OLD to that of NEW: the items that were removed, changed and added, by
their names without versions. Of a function that changed, it says whether a host that was built for OLD can call it: if
its types cross in the same way, labels aside, so that the core signatures and the layouts are the same. The exit status
is 1 if such a host can't call each function of OLD any more. Prints nothing if nothing changed.
";

const CALL: &str = "\
usage: wit-explain call [--svg FILE] [--color WHEN] PATH INTERFACE FUNCTION ARGUMENTS [ANSWER]

Makes a call as `witcall call` does, and shows what it did: the core values on each side, the blocks that were
requested, and the bytes in them, field by field. INTERFACE is the full name of an interface, as `demo:shop/desk`, or
of a world whose own item the function is. ARGUMENTS is a JSON array of one value for each parameter. ANSWER is a JSON
array of the value that the callee returns; leave it out if there is none. With --svg, writes all that to FILE as SVG,
with arrows from pointers to blocks, or to standard output if FILE is `-`.
";

const BIND: &str = "\
usage: wit-explain bind c|ts|python PATH..
       wit-explain bind guest [--world NAME] PATH..

bind c prints a C header with the types and functions of these packages, dependencies too. Types are structs as they lie
in a memory, with assertions of sizes, alignments and offsets. For each function there is one that makes the core values
of a call, and one that reads its result.
bind guest prints a C header for a guest that clang compiles for wasm32: a function for each import of a world, and the
declaration of one that the guest defines for each export. Of several packages it is the last that is no dependency.
bind ts prints declarations for TypeScript of a package and of what it uses: the types of the values that the JavaScript
package of witcall takes and returns. Of several packages it is the last that is no dependency.
bind python prints a module of Python of these, with data classes and enums, and with a protocol for each interface. The
Python package of witcall takes and returns these values, if it is handed the module.
";

/// The commands, each with its help.
static COMMANDS: [(&str, &str); 12] = [
    ("check", CHECK),
    ("format", FORMAT),
    ("show", SHOW),
    ("text", TEXT),
    ("bin", BIN),
    ("encode", ENCODE),
    ("embed", EMBED),
    ("decode", DECODE),
    ("layout", LAYOUT),
    ("diff", DIFF),
    ("call", CALL),
    ("bind", BIND),
];

/// The help of a command. None if there is no such command.
pub fn help_of(command: &str) -> Option<&'static str> {
    for (name, help) in &COMMANDS {
        if *name == command {
            return Some(*help);
        }
    }
    None
}

/// The names of the commands.
pub fn names_of_commands(alloc: Global) -> Result<Vec<&'static str>, AllocError> {
    let mut names = Vec::new(alloc);
    for (name, _) in &COMMANDS {
        names.push(*name)?;
    }
    Ok(names)
}

/// The help of the program.
pub fn usage() -> &'static str {
    PROGRAM
}
