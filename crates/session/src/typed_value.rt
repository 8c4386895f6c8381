ghost use Rattle.std.specs.Prelude.{◌≡◌};
ghost use Rattle.map_model.specs.Properties.{scalar_value};
ghost use Rattle.session.specs.TypedValues.{property_value, type_name};

use crate::text::Text;
use map_model::Scalar;

/// A property's type and value, as a line gives them.
#[derive(Drop)]
pub enum TypedValue<'a> {
    String(Text<'a>),
    File(Text<'a>),
    Int(i32),
    Bool(bool),
    /// `#` and 6 or 8 digits.
    Color(Text<'a>),
    /// The id of an object, which need not be there.
    Object(u32),
}

impl<'a> TypedValue<'a> {
    /// The type's name, as Tiled has it.
    pub fn type_name(&self) -> &'static str
        ensures { result.now ≡ type_name self.now }
    {
        match self {
            TypedValue::String(_) => "string",
            TypedValue::File(_) => "file",
            TypedValue::Int(_) => "int",
            TypedValue::Bool(_) => "bool",
            TypedValue::Color(_) => "color",
            TypedValue::Object(_) => "object",
        }
    }

    /// The value: a whole number of an int and an object, a truth value of a bool, and of others a text.
    pub fn scalar(&self) -> Scalar<'a>
        ensures { scalar_value result ≡ property_value self.now }
    {
        match self {
            TypedValue::String(text) | TypedValue::File(text) | TypedValue::Color(text) => {
                Scalar::Text(text.as_str())
            }
            TypedValue::Int(number) => Scalar::Whole(i64::from(*number)),
            TypedValue::Bool(truth) => Scalar::Truth(*truth),
            TypedValue::Object(id) => Scalar::Whole(i64::from(*id)),
        }
    }
}
