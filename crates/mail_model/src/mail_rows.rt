//! Base64, computed on known texts.
ghost use Rattle.std.specs.Prelude.{◌≡◌, [], codes};
ghost use Rattle.mail_model.specs.Base64.{base64_text};

/// The known texts of [RFC 4648 10].
pub fn base64_of_known_texts()
    ensures none { base64_text [] ≡ [] }
    ensures one { base64_text (codes "f") ≡ codes "Zg==" }
    ensures two { base64_text (codes "fo") ≡ codes "Zm8=" }
    ensures three { base64_text (codes "foo") ≡ codes "Zm9v" }
    ensures four { base64_text (codes "foob") ≡ codes "Zm9vYg==" }
    ensures five { base64_text (codes "fooba") ≡ codes "Zm9vYmE=" }
    ensures six { base64_text (codes "foobar") ≡ codes "Zm9vYmFy" }
{}
