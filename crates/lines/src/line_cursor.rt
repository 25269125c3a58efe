/// A cursor over the lines of a text: what it has yet to give.
#[derive(Clone, Copy, Debug)]
pub struct LineCursor<'a> {
    rest: &'a [u8],
}

mod methods;
