//! What `decode` and `encode` are to each other.
ghost use Rattle.std.specs.Prelude.{◌≡◌, ◌≢◌, None, Some};
ghost use Rattle.rv_word.specs.Decoding.{decoded};
ghost use Rattle.rv_word.specs.Validity.{Valid};
ghost use Rattle.rv_word.specs.declared.insn.Insn.{Insn};

use crate::decoding::decode;
use crate::encoding::encode;
use crate::insn::Insn;

/// The instruction again, from its word.
pub fn decode_encoded(insn: Insn) -> Option<Insn>
    requires { Valid insn }
    ensures exact { result ≡ Some insn }
{
    decode(encode(insn))
}

/// The word again, from its instruction. A fence's comes back as `0x0ff0000f`, and a word that
/// means nothing as none.
pub fn encode_decoded(word: u32) -> Option<u32>
    ensures same { (insn : Insn) → decoded word ≡ Some insn → insn ≢ Insn.Fence → result ≡ Some word }
    ensures fence { decoded word ≡ Some Insn.Fence → result ≡ Some 0x0ff0000f }
    ensures none { decoded word ≡ None → result ≡ None }
{
    Some(encode(decode(word)?))
}
