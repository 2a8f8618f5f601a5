//! Keys of questions.

ghost use Rattle.std.specs.Prelude.{◌≡◌, ◌+◌, ◌≤◌, ◌++◌, [], length};
ghost use Rattle.stub_cache.specs.internal.Key.{key_of, label_key};

use arrayvec::ArrayVec;
use dns_messages::Query;

/// The maximum length of a key: the type and the class in two bytes each, the flag, and at most 255 bytes for the labels.
const MAX_KEY_LEN: usize = 260;

/// Bytes that are equal for two questions exactly if these have the same entry.
pub type QuestionKey = ArrayVec<u8, MAX_KEY_LEN>;

/// Appends the key of a question to an empty one: its type and its class, whether its name is fully qualified, and the labels
/// in lower case, each after its length.
pub fn push_question(key: &mut QuestionKey, query: &Query)
    requires { key.old.items ≡ [] }
    ensures { key.new.items ≡ key_of query.now }
{
    let _ = query.name.encoded_len();
    let kind = u16::from(query.query_type);
    let class = u16::from(query.query_class);
    key.push((kind / 256) as u8);
    key.push((kind % 256) as u8);
    key.push((class / 256) as u8);
    key.push((class % 256) as u8);
    key.push(if query.name.is_fqdn() { 1 } else { 0 });
    for label in query.name.iter() {
        push_label(key, label);
    }
}

/// Appends the length of a label, and its bytes in lower case.
fn push_label(key: &mut QuestionKey, label: &[u8])
    requires begun { 5 ≤ length key.old.items }
    requires fits { length key.old.items + (length label.now + 1) ≤ MAX_KEY_LEN }
    ensures { key.new.items ≡ key.old.items ++ label_key label.now }
{
    key.push(label.len() as u8);
    for byte in label {
        key.push(byte.to_ascii_lowercase());
    }
}
