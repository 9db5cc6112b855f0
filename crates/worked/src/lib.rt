//! The rules' worked cases. One table has them all, and one theorem says that they hold.
#![tactic(auto)]

ghost use Rattle.std.specs.Prelude.{◌≡◌, length};
ghost use Rattle.std.specs.List.{All};
ghost use Rattle.worked.specs.Table.{Holds, table};

/// How many worked cases the table has. All of them hold.
pub fn worked_cases() -> usize
    ensures count { result ≡ length table }
    ensures hold { All Holds table }
{
    2
}

#[cfg(test)]
mod tests;
