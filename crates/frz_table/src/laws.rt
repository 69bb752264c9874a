//! Laws of table files, each the contract of a function that does nothing.
ghost use Rattle.std.specs.Prelude.{◌≡◌, ℕ, ◌^◌, ◌<◌, List, length, take, Some, Ok, Err};
ghost use Rattle.frz_board.specs.declared.man.Colour.TheVariants.{White, Black};
ghost use Rattle.frz_table.specs.Layout.{codes_at, file_of};
ghost use Rattle.frz_table.specs.declared.fault.TableFault.TheVariants.{Truncated};
ghost use Rattle.frz_table.specs.Numbers.{AreBytes, AreNumbers};
ghost use Rattle.frz_table.specs.Tables.{IsTableFile};
ghost use Rattle.frz_table.specs.Opening.{Format, Contents, IsOpened, due_by, opened};

/// A file opens exactly if it is a table file of its text and of the size that its rules give,
/// neither cut short nor longer.
pub fn what_opens()
    ensures belongs { (format : Format) (bytes : List ℕ) (contents : Contents)
        → opened format (Some bytes) ≡ Ok contents → IsOpened format bytes contents }
    ensures opens { (format : Format) (bytes : List ℕ) (contents : Contents)
        → IsOpened format bytes contents → opened format (Some bytes) ≡ Ok contents }
{}

/// A file that opens is refused as cut short wherever it is cut. The fault gives the length that is
/// left and the length that is due.
pub fn cut_files()
    ensures { (format : Format) (bytes : List ℕ) (contents : Contents) (left : ℕ)
        → opened format (Some bytes) ≡ Ok contents → left < length bytes
        → opened format (Some (take left bytes))
        ≡ Err (Truncated left (due_by contents.text (format.size contents.rules) left)) }
{}

/// Bytes are a table file of one magic, one text and one size only.
pub fn one_reading()
    ensures { (m n t u : List ℕ) (k l : ℕ) (bytes : List ℕ)
        → IsTableFile m t k bytes → IsTableFile n u l bytes → (m ≡ n) × (t ≡ u) × (k ≡ l) }
{}

/// The codes that are loaded from a table file give the same bytes when they are written again.
pub fn loaded_and_written()
    ensures { (magic text : List ℕ) (size : ℕ) (bytes : List ℕ) → IsTableFile magic text size bytes
        → AreBytes bytes → file_of magic text size (codes_at White text size bytes)
        (codes_at Black text size bytes)
        ≡ bytes }
{}

/// What is written is a table file, and the codes in it are those that were written.
pub fn written_and_loaded()
    ensures file { (magic text : List ℕ) (size : ℕ) (white black : List ℕ) → length magic ≡ 8
        → length text < 2 ^ 32 → size < 2 ^ 32 → length white ≡ size → length black ≡ size
        → IsTableFile magic text size (file_of magic text size white black) }
    ensures codes { (magic text : List ℕ) (size : ℕ) (white black : List ℕ) → length magic ≡ 8
        → length white ≡ size → length black ≡ size
        → AreNumbers white → AreNumbers black
        → (codes_at White text size (file_of magic text size white black) ≡ white)
        × (codes_at Black text size (file_of magic text size white black) ≡ black) }
{}

/// Each element of a slice of bytes is below 256.
pub fn bytes_fit(slice: &[u8])
    ensures { AreBytes slice.now }
{}

/// Each element of the slice is below 2^32.
pub fn numbers_fit(slice: &[u32])
    ensures { AreNumbers slice.now }
{}
