//! The words that operands mean.
ghost use Rattle.std.specs.Prelude.{◌≡◌};
ghost use Rattle.asm_layout.specs.Labels.{Addresses, HoldsLabels};
ghost use Rattle.asm_link.specs.Assembly.{address_of, word_in};

use asm_layout::Labels;
use asm_parse::Value;

/// The address of a label, as a word.
pub fn label_word(labels: &Labels<'_>, name: &[u8]) -> u32
    ensures word { (known : Addresses) → HoldsLabels labels.now known → result ≡ address_of known name.now }
{
    let address = asm_layout::address_of(labels, name).unwrap_or(0);
    (address % (1 << 32)) as u32
}

/// The word of a value.
pub fn value_word(labels: &Labels<'_>, value: &Value<'_>) -> u32
    ensures word { (known : Addresses) → HoldsLabels labels.now known → result ≡ word_in known value.now }
{
    match value {
        Value::Number(word) => *word,
        Value::Of(name) => label_word(labels, name.as_slice()),
    }
}
