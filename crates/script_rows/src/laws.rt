//! What the definitions of lines come to.
ghost use Rattle.std.specs.Prelude.{◌≡◌, Some, false};
ghost use Rattle.serde_json.specs.Data.{Data};
ghost use Rattle.serde_json.specs.Written.{has_float};
ghost use Rattle.line_elements.specs.declared.version.Version.{Version};
ghost use Rattle.line_elements.specs.declared.version.Version.TheVariants.{Second};
ghost use Rattle.script_rows.specs.Plain.{IsPlain};
ghost use Rattle.script_rows.specs.Printing.{data_of};
ghost use Rattle.script_rows.specs.Rows.{row_of};
ghost use Rattle.script_rows.specs.declared.rows.Row.{Row};

/// The value of a row that some value says is read as that row again, in the second version, whichever it was said in.
pub fn a_printed_row_is_read_again()
    ensures { (version : Version) (said : Data) (row : Row) → row_of version said ≡ Some row
        → row_of Second (data_of row) ≡ Some row }
{}

/// In the value of a row no number is a float, if that holds of the arguments of the request that it may be.
pub fn a_printed_row_has_no_float()
    ensures { (row : Row) → IsPlain row → has_float (data_of row) ≡ false }
{}
