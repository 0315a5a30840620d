// The delimiters of a table as one value: its rows, the bucket size, and how many buckets there are.
ghost use Rattle.std.specs.Prelude.{◌≡◌, ◌≤◌, length};
ghost use Rattle.tables.specs.Delimiters.{delimiters, Bucketed};

// A table and a bucket size that were seen to be within their limits, so that no function has to ask for it again.
#[derive(Clone, Copy)]
pub struct Delimiters<'a> {
    pub keys: &'a [u64],
    pub b: usize,
    pub count: usize,
    ghost bucketed: { Bucketed b keys.now },
    ghost counted: { count ≡ length (delimiters b keys.now) },
    ghost few: { count ≤ 32768 },
}
