//! Pictures of types and of functions.

use checked_packages::Checked;
use layout_picture::{Form, Sheet};
use package_picture::draw_package;
use std::alloc::{AllocError, Global};

/// Draws the packages that are no dependencies.
fn draw(sheet: &mut Sheet, packages: &[Checked], wanted: Option<&str>) -> Result<(), AllocError> {
    for package in packages {
        if !package.is_dependency {
            draw_package(sheet, &package.tables, &package.layouts, wanted)?;
        }
    }
    Ok(())
}

/// The pictures of the types of packages that are no dependencies, or of the types and functions of a name. None if
/// there are none of this name.
pub fn picture_of(
    alloc: Global,
    packages: &[Checked],
    form: Form,
    wanted: Option<&str>,
) -> Result<Option<String>, AllocError> {
    let mut sheet = Sheet::new(alloc, form);
    draw(&mut sheet, packages, wanted)?;
    if wanted.is_some() && sheet.is_empty() {
        return Ok(None);
    }
    Ok(Some(sheet.finish()?))
}
