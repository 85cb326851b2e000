//! Looks names up in tables.

ghost use Rattle.std.specs.Prelude.{◌≡◌, map};
ghost use Rattle.rv_asm.specs.Tables.{looked_up as looked_up_in};

/// Returns the value in the row of a name, if there is one. Names are case-sensitive.
pub(crate) fn looked_up<T: Copy>(rows: &[(&str, T)], name: &[u8]) -> Option<T>
    ensures { result ≡ looked_up_in (map (λ row. (row.0.now, row.1)) rows.now) name.now }
{
    let row = rows.iter().find(|row| name == row.0.as_bytes())?;
    Some(row.1)
}
