//! What the commands do with checked packages.

use crate::asked::{Asked, Verb};
use crate::writing::{push_written, refuse, save, save_written, show};
use call_command::{CallWords, report_call};
use checked_packages::{Checked, CheckedSet, main_of};
use layout_picture::Form;
use module_worlds::EmbedError;
use package_commands::{
    Unembedded, binary_of, declarations_for_python, declarations_for_ts, document_of, embedded,
    encoded, header_for_c, header_for_guest, picture_of, push_contents, text_of,
};
use wit_faults::Report;

/// Writes all that a package has as one JSON document.
fn document(rt: &HostRuntime, report: &mut Report, package: &Checked) {
    report.text.push_made(document_of(rt.alloc(), package));
    report.text.push("\n");
}

/// Writes the canonical text of a package.
fn text(rt: &HostRuntime, report: &mut Report, packages: &CheckedSet, asked: &Asked<'_, '_>) {
    let list = packages.list.as_slice();
    if let Some(package) = list.get(main_of(list)) {
        let text = text_of(rt.alloc(), packages, package);
        push_written(report, asked, &text);
    }
}

/// Writes the binary of a package to a file.
fn binary(rt: &HostRuntime, report: &mut Report, package: &Checked, asked: &Asked<'_, '_>) {
    let bytes = binary_of(rt.alloc(), package);
    save_written(rt, report, asked, &bytes);
}

/// Writes a package to a file as other tools read it, or a world of it.
fn encode(rt: &HostRuntime, report: &mut Report, package: &Checked, asked: &Asked<'_, '_>) {
    let bytes = encoded(rt.alloc(), package, asked.options.world);
    save_written(rt, report, asked, &bytes);
}

/// Reports why a module is not written with a world of a package.
fn refuse_module(report: &mut Report, asked: &Asked<'_, '_>, error: &Unembedded) {
    let module = asked.word(0);
    match error {
        Unembedded::World(error) => refuse(report, asked.path(), error),
        Unembedded::Embed(EmbedError::Unfit(misfits)) => {
            for misfit in misfits {
                refuse(report, module, misfit);
            }
        }
        error => refuse(report, module, error),
    }
}

/// Writes a module to a file, with a world of a package.
fn embed(rt: &HostRuntime, report: &mut Report, package: &Checked, asked: &Asked<'_, '_>) {
    let world = asked.options.world.unwrap_or("");
    let bytes = embedded(rt, package, world, asked.word(0));
    match &bytes {
        Ok(bytes) => save(rt, report, asked.file(), bytes.as_slice()),
        Err(error) => refuse_module(report, asked, error),
    }
}

/// How a picture is written.
fn form_of(asked: &Asked<'_, '_>) -> Form {
    if asked.options.svg.is_some() {
        Form::Svg
    } else {
        Form::Boxes
    }
}

/// Reports that a package has no type and no function of a name.
fn refuse_name(report: &mut Report, path: &str, name: &str) {
    report.status = 1;
    report
        .text
        .push_three(path, ": no type or function `", name);
    report.text.push("`\n");
}

/// Draws the types of packages, or the types and functions of a name.
fn layout(rt: &HostRuntime, report: &mut Report, packages: &[Checked], asked: &Asked<'_, '_>) {
    let wanted = asked.words.get(1).copied();
    let picture = picture_of(rt.alloc(), packages, form_of(asked), wanted);
    match &picture {
        Ok(Some(picture)) => show(rt, report, asked.options.svg, picture.as_str()),
        Ok(None) => refuse_name(report, asked.word(0), wanted.unwrap_or("")),
        Err(_) => report.text.refuse(),
    }
}

/// Makes a call of a function of a package.
fn call(rt: &HostRuntime, report: &mut Report, packages: &[Checked], asked: &Asked<'_, '_>) {
    let words = CallWords {
        interface: asked.word(1),
        function: asked.word(2),
        arguments: asked.word(3),
        answer: asked.words.get(4).copied().unwrap_or("[]"),
        form: form_of(asked),
    };
    let picture = report_call(rt.alloc(), report, packages, &words);
    if let Some(picture) = &picture {
        show(rt, report, asked.options.svg, picture.as_str());
    }
}

/// Writes a header for C of packages.
fn bind_c(rt: &HostRuntime, report: &mut Report, packages: &CheckedSet, asked: &Asked<'_, '_>) {
    let header = header_for_c(rt.alloc(), packages);
    push_written(report, asked, &header);
}

/// Writes a header for guests of a world of a package.
fn bind_guest(rt: &HostRuntime, report: &mut Report, packages: &CheckedSet, asked: &Asked<'_, '_>) {
    let header = header_for_guest(rt.alloc(), packages, asked.options.world);
    push_written(report, asked, &header);
}

/// Writes declarations for TypeScript of packages.
fn bind_ts(rt: &HostRuntime, report: &mut Report, packages: &CheckedSet) {
    report
        .text
        .push_made(declarations_for_ts(rt.alloc(), packages));
}

/// Writes a module of Python for packages.
fn bind_python(rt: &HostRuntime, report: &mut Report, packages: &CheckedSet) {
    report
        .text
        .push_made(declarations_for_python(rt.alloc(), packages));
}

/// Does with the last package that is no dependency what a command asks for.
fn run_on_main(rt: &HostRuntime, report: &mut Report, packages: &[Checked], asked: &Asked<'_, '_>) {
    let Some(package) = packages.get(main_of(packages)) else {
        return;
    };
    match asked.verb {
        Verb::Document => document(rt, report, package),
        Verb::Binary => binary(rt, report, package, asked),
        Verb::Encode => encode(rt, report, package, asked),
        Verb::Embed => embed(rt, report, package, asked),
        _ => {}
    }
}

/// Does with packages what a command asks for.
pub fn run_on(rt: &HostRuntime, report: &mut Report, packages: &CheckedSet, asked: &Asked<'_, '_>) {
    let list = packages.list.as_slice();
    match asked.verb {
        Verb::Contents => push_contents(rt.alloc(), report, list),
        Verb::Text => text(rt, report, packages, asked),
        Verb::Layout => layout(rt, report, list, asked),
        Verb::Call => call(rt, report, list, asked),
        Verb::HeaderForC => bind_c(rt, report, packages, asked),
        Verb::HeaderForGuest => bind_guest(rt, report, packages, asked),
        Verb::DeclarationsForTs => bind_ts(rt, report, packages),
        Verb::DeclarationsForPython => bind_python(rt, report, packages),
        _ => run_on_main(rt, report, list, asked),
    }
}
