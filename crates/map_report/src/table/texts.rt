// Texts with names.
use std::alloc::{AllocError, Global};

#[derive(Drop)]
struct Text {
    name: String,
    bytes: Vec<u8>,
}

/// The texts that have been given names.
#[derive(Drop)]
pub struct Texts {
    texts: Vec<Text>,
}

impl Texts {
    /// No text yet.
    pub fn new(alloc: Global) -> Texts {
        Texts {
            texts: Vec::new(alloc),
        }
    }

    /// Gives a text a name.
    pub fn put(&mut self, alloc: Global, name: &str, bytes: Vec<u8>) -> Result<(), AllocError> {
        let name = String::from_str(alloc, name)?;
        self.texts.push(Text { name, bytes })?;
        Ok(())
    }

    /// The text of a name; empty where there is none.
    pub fn get(&self, name: &str) -> &[u8] {
        match self.texts.iter().find(|text| text.name.as_str() == name) {
            Some(text) => text.bytes.as_slice(),
            None => &[],
        }
    }

    /// The name of a text.
    pub fn name_of(&self, bytes: &[u8]) -> Option<&str> {
        let text = self
            .texts
            .iter()
            .find(|text| text.bytes.as_slice() == bytes)?;
        Some(text.name.as_str())
    }
}
