// A line of JSON as it is put together.
use json::Writer;
use std::alloc::{AllocError, Global};

/// An object of JSON, whose members are put one after the other. Without memory for a part it stays as it is, and the end tells
/// so: no function that puts parts ends early, which would make its proof a long one.
#[derive(Drop)]
pub struct Members {
    out: Writer,
    is_lost: bool,
}

impl Members {
    /// Nothing is put yet.
    pub fn new(alloc: Global) -> Members {
        Members {
            out: Writer::new(Vec::new(alloc)),
            is_lost: false,
        }
    }

    /// There was no memory for what is put next.
    pub fn lose(&mut self) {
        self.is_lost = true;
    }

    pub fn begin_object(&mut self) {
        if !self.is_lost {
            self.is_lost = self.out.begin_object().is_err();
        }
    }

    pub fn end_object(&mut self) {
        if !self.is_lost {
            self.is_lost = self.out.end_object().is_err();
        }
    }

    pub fn begin_array(&mut self) {
        if !self.is_lost {
            self.is_lost = self.out.begin_array().is_err();
        }
    }

    pub fn end_array(&mut self) {
        if !self.is_lost {
            self.is_lost = self.out.end_array().is_err();
        }
    }

    /// The name of a member, whose value is put next.
    pub fn key(&mut self, name: &str) {
        if !self.is_lost {
            self.is_lost = self.out.key(name).is_err();
        }
    }

    pub fn string(&mut self, text: &str) {
        if !self.is_lost {
            self.is_lost = self.out.string(text).is_err();
        }
    }

    pub fn u64(&mut self, number: u64) {
        if !self.is_lost {
            self.is_lost = self.out.u64(number).is_err();
        }
    }

    pub fn i64(&mut self, number: i64) {
        if !self.is_lost {
            self.is_lost = self.out.i64(number).is_err();
        }
    }

    /// A number; `null` where it is none that JSON has.
    pub fn f64(&mut self, number: f64) {
        if !number.is_finite() {
            return self.null();
        }
        if !self.is_lost {
            self.is_lost = self.out.float(number).is_err();
        }
    }

    pub fn boolean(&mut self, truth: bool) {
        if !self.is_lost {
            self.is_lost = self.out.boolean(truth).is_err();
        }
    }

    pub fn null(&mut self) {
        if !self.is_lost {
            self.is_lost = self.out.null().is_err();
        }
    }

    /// Begins a member that is a list.
    pub fn begin_list(&mut self, name: &str) {
        self.key(name);
        self.begin_array();
    }

    /// A member that is a text.
    pub fn text(&mut self, name: &str, text: &str) {
        self.key(name);
        self.string(text);
    }

    /// The code and the words of a refusal, which are told together.
    pub fn code(&mut self, told: &str) {
        let (code, words) = told.split_once(' ').unwrap_or(("0", told));
        self.key("code");
        self.u64(code.parse::<u64>().unwrap_or(0));
        self.text("words", words);
    }

    /// A member that is a number.
    pub fn number(&mut self, name: &str, number: u32) {
        self.key(name);
        self.u64(u64::from(number));
    }

    /// A member that is a count.
    pub fn count(&mut self, name: &str, count: usize) {
        self.key(name);
        self.u64(count as u64);
    }

    /// A member that is a number, or `null` where there is none.
    pub fn number_or_null(&mut self, name: &str, number: Option<u32>) {
        self.key(name);
        match number {
            Some(number) => self.u64(u64::from(number)),
            None => self.null(),
        }
    }

    /// A member that is `null`.
    pub fn nothing(&mut self, name: &str) {
        self.key(name);
        self.null();
    }

    /// A member that is true or false.
    pub fn truth(&mut self, name: &str, truth: bool) {
        self.key(name);
        self.boolean(truth);
    }

    /// The line, if there was memory for all that was put.
    pub fn into_line(self) -> Result<Vec<u8>, AllocError> {
        let Members { out, is_lost } = self;
        if is_lost {
            return Err(AllocError);
        }
        Ok(out.into_inner())
    }
}
