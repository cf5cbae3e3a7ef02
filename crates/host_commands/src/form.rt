//! The form of the lines.
ghost use Rattle.std.specs.Prelude.{◌≡◌, if◌then◌else◌};

use capture_text::Form;

/// The form of the lines, if each is to be an object or not.
pub(crate) fn form_of(are_objects: bool) -> Form
    ensures { result ≡ (if are_objects then Form.Json else Form.Text) }
{
    if are_objects { Form::Json } else { Form::Text }
}
