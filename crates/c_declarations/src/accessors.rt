//! How values are loaded and stored.

use crate::header::{Header, Includer};
use text_builder::TextBuilder;

impl<'a> Header<'a> {
    /// Writes how a type of this name is loaded and stored by a host.
    pub(crate) fn put_access(&mut self, c: &str) {
        if self.purpose.includer == Includer::Guest {
            return;
        }
        let load = self.take_function(&[c, "_load"]);
        push_load(&mut self.text, c, load.as_str());
        let store = self.take_function(&[c, "_store"]);
        push_store(&mut self.text, c, store.as_str());
    }

    /// Writes how an element of a list is loaded and stored by a host.
    fn put_places(&mut self, c: &str, element: &str) {
        let get = self.take_function(&[c, "_get"]);
        push_get(&mut self.text, c, element, get.as_str());
        let set = self.take_function(&[c, "_set"]);
        push_set(&mut self.text, c, element, set.as_str());
    }

    /// Writes how the elements of a list are reached.
    pub(crate) fn put_elements(&mut self, c: &str, element: &str) {
        match self.purpose.includer {
            Includer::Host => self.put_places(c, element),
            Includer::Guest => self.put_pointers(c, element),
        }
    }
}

fn push_load(text: &mut TextBuilder, c: &str, load: &str) {
    text.push_three("\nstatic inline ", c, " ");
    text.push_three(load, "(const uint8_t *memory, uint32_t at) {\n    ", c);
    text.push(" value;\n    memcpy(&value, memory + at, sizeof value);\n    return value;\n}\n");
}

fn push_store(text: &mut TextBuilder, c: &str, store: &str) {
    text.push_three(
        "\nstatic inline void ",
        store,
        "(uint8_t *memory, uint32_t at, ",
    );
    text.push(c);
    text.push(" value) {\n    memcpy(memory + at, &value, sizeof value);\n}\n");
}

fn push_get(text: &mut TextBuilder, c: &str, element: &str, get: &str) {
    text.push_three("\nstatic inline ", element, " ");
    text.push_three(get, "(const uint8_t *memory, ", c);
    text.push_three(" list, uint32_t place) {\n    ", element, " value;\n");
    text.push(GET);
}

fn push_set(text: &mut TextBuilder, c: &str, element: &str, set: &str) {
    text.push_three("\nstatic inline void ", set, "(uint8_t *memory, ");
    text.push_three(c, " list, uint32_t place, ", element);
    text.push(" value) {\n");
    text.push(SET);
}

static GET: &str =
    "    memcpy(&value, memory + list.address + (size_t)place * sizeof value, sizeof value);
    return value;
}
";

static SET: &str =
    "    memcpy(memory + list.address + (size_t)place * sizeof value, &value, sizeof value);
}
";
