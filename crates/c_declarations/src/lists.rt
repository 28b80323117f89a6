//! How a guest reaches the elements of a list, and makes a list.

use crate::header::Header;
use text_builder::TextBuilder;

impl<'a> Header<'a> {
    /// Writes the functions of a list for a guest.
    pub(crate) fn put_pointers(&mut self, c: &str, element: &str) {
        let elements = self.take_function(&[c, "_elements"]);
        push_elements(&mut self.text, c, element, elements.as_str());
        let of = self.take_function(&[c, "_of"]);
        push_of(&mut self.text, c, element, of.as_str());
        self.put_new(c, element, of.as_str());
    }

    /// Writes the function that makes a list in a new block, by the one of this name.
    fn put_new(&mut self, c: &str, element: &str, of: &str) {
        let new = self.take_function(&[c, "_new"]);
        push_new_head(&mut self.text, c, new.as_str());
        push_new_body(&mut self.text, element, of);
    }
}

/// Writes the function that gives the elements of a list.
fn push_elements(text: &mut TextBuilder, c: &str, element: &str, elements: &str) {
    text.push_three("\nstatic inline ", element, " *");
    text.push_three(elements, "(", c);
    text.push_three(
        " list) {\n    return (",
        element,
        " *)(uintptr_t)list.address;\n}\n",
    );
}

/// Writes the function that makes a list of elements that are there.
fn push_of(text: &mut TextBuilder, c: &str, element: &str, of: &str) {
    text.push_three("\nstatic inline ", c, " ");
    text.push_three(of, "(const ", element);
    text.push_three(
        " *elements, size_t length) {\n    ",
        c,
        " list = {(uint32_t)(uintptr_t)elements, (uint32_t)length};\n    return list;\n}\n",
    );
}

/// Writes the head of the function that makes a list in a new block.
fn push_new_head(text: &mut TextBuilder, c: &str, new: &str) {
    text.push_three("\nstatic inline ", c, " ");
    text.push(new);
    text.push("(size_t length) {\n");
}

/// Writes what the function does that makes a list in a new block.
fn push_new_body(text: &mut TextBuilder, element: &str, of: &str) {
    text.push_three(
        "    void *block = wit_allocate_all(alignof(",
        element,
        "), sizeof(",
    );
    text.push_three(element, "), length);\n    return ", of);
    text.push_three("((const ", element, " *)block, length);\n}\n");
}
