//! Keys of hits.
ghost use Rattle.std.specs.Prelude.{◌≡◌, ℕ, List};
ghost use Rattle.sg_base.specs.declared.hit.Hit.{Hit as PlainHit};

use sg_base::Hit;

/// Where the keys of hits stand.
pub trait Keys {
    /// The key of a hit.
    ghost key_of: { Self → PlainHit → List ℕ };

    /// A hit whose document and place are there.
    ghost known: { Self → PlainHit → Type 0 };

    /// The key of the suggestion at the hit's place of its document.
    fn key(&self, hit: &Hit) -> &[u8]
        requires { known self.now hit.now }
        ensures { result.now ≡ key_of self.now hit.now };
}
