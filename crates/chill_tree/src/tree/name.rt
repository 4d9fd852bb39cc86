// A name where it stands.
use crate::NameText;
use chill_base::Pos;

/// A name as it is spelled, and the place of its first byte.
#[derive(Drop)]
pub struct Name {
    pub at: Pos,
    pub text: NameText,
}
