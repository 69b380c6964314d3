//! The writer.

use serde::Serialize;
use std::alloc::{AllocError, Global};

/// JSON that is being written, on one line. The end of it says whether memory ran out on the way.
#[derive(Drop)]
pub struct JsonWriter {
    alloc: Global,
    text: String,
    // Whether memory was refused to a part of the text.
    is_refused: bool,
    // Whether what comes next follows a value of the same object or list.
    follows: bool,
}

impl JsonWriter {
    /// Nothing yet.
    pub fn new(alloc: Global) -> JsonWriter {
        JsonWriter {
            alloc,
            text: String::new(alloc),
            is_refused: false,
            follows: false,
        }
    }

    // Writes a part of the text as it stands.
    fn put(&mut self, part: &str) {
        if self.text.push_str(part).is_err() {
            self.is_refused = true;
        }
    }

    // Writes what stands between two values.
    fn separate(&mut self) {
        if self.follows {
            self.put(",");
        }
    }

    // Begins an object or a list.
    fn open(&mut self, bracket: &str) {
        self.separate();
        self.put(bracket);
        self.follows = false;
    }

    // Ends an object or a list.
    fn close(&mut self, bracket: &str) {
        self.put(bracket);
        self.follows = true;
    }

    /// Begins an object.
    pub fn begin_object(&mut self) {
        self.open("{");
    }

    /// Ends the object.
    pub fn end_object(&mut self) {
        self.close("}");
    }

    /// Begins a list.
    pub fn begin_list(&mut self) {
        self.open("[");
    }

    /// Ends the list.
    pub fn end_list(&mut self) {
        self.close("]");
    }

    /// Writes the name of a member, which is a plain word. Its value comes next.
    pub fn name(&mut self, name: &str) {
        self.open("\"");
        self.put(name);
        self.put("\":");
    }

    /// Writes a value.
    pub fn value<T: Serialize>(&mut self, value: &T) {
        self.separate();
        self.follows = true;
        match serde_json::to_string(self.alloc, value) {
            Ok(text) => self.put(text.as_str()),
            Err(_) => self.is_refused = true,
        }
    }

    /// Writes the value that is none.
    pub fn null(&mut self) {
        self.value(&());
    }

    /// Writes a member.
    pub fn member<T: Serialize>(&mut self, name: &str, value: &T) {
        self.name(name);
        self.value(value);
    }

    /// Writes a member whose value is a text of letters, digits and marks that JSON shows as they are.
    pub fn plain_member(&mut self, name: &str, text: &str) {
        self.name(name);
        self.put("\"");
        self.put(text);
        self.put("\"");
        self.follows = true;
    }

    /// The whole text. It fails only if memory ran out.
    pub fn into_text(self) -> Result<String, AllocError> {
        if self.is_refused {
            return Err(AllocError);
        }
        Ok(self.text)
    }
}
