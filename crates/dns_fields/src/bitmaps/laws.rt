//! Theorems about the definitions of this crate, as functions with empty bodies.

ghost use Rattle.std.specs.Prelude.{◌≡◌, ◌<◌, ℕ, List, true, Some};
ghost use Rattle.std.specs.List.{AllByRecursion};
ghost use Rattle.dns_fields.specs.bitmaps.Bitmap.{bitmap_of, types_of, is_bitmap};
ghost use Rattle.dns_fields.specs.bitmaps.Base32.{encoded, decoded};

/// The types of a bitmap have that bitmap.
pub fn bitmap_is_read_back()
    ensures { (bytes : List ℕ) → AllByRecursion (λ c. c < 256) bytes → is_bitmap 0 0 bytes ≡ true
        → bitmap_of (types_of 0 0 bytes) ≡ bytes }
{}

/// Bytes in base32hex are decoded as these bytes.
pub fn base32_is_read_back()
    ensures { (bytes : List ℕ) → AllByRecursion (λ c. c < 256) bytes
        → decoded (encoded bytes) ≡ Some bytes }
{}
