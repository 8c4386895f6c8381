// A file by its name, and whether that fits what is in it.
use tiled_files::{Kind, kind_of, kind_of_bytes};

/// The name of a file, as it was given, and how it differs from what is in the file, in words.
#[derive(Clone, Copy)]
pub struct Named<'a> {
    pub file: &'a str,
    pub differs: Option<&'static str>,
}

// Whether a name says JSON.
fn is_json_name(name: &str) -> bool {
    name.ends_with(".json") || name.ends_with(".tmj")
}

impl<'a> Named<'a> {
    /// A file that was not read.
    pub fn unread(file: &'a str) -> Named<'a> {
        Named {
            file,
            differs: None,
        }
    }

    /// A file with these bytes.
    pub fn of(file: &'a str, bytes: &[u8]) -> Named<'a> {
        let differs = match (kind_of(file, b""), kind_of_bytes(bytes)) {
            (Kind::Tmx, Kind::Json) => Some("its name ends in .tmx, and it is no XML"),
            (Kind::Json, Kind::Tmx) if is_json_name(file) => Some(
                "its name says JSON, and it is XML",
            ),
            _ => None,
        };
        Named { file, differs }
    }
}
