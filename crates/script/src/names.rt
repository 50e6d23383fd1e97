// The words that begin a form. A name is an enum of its own: it is read before the fields are, and a match on its bytes
// in their place would be no plainer.

// The first word of a line's form.
#[derive(Clone, Copy)]
pub enum FormName {
    Make,
    Tune,
    Begin,
    Take,
    Sent,
    Held,
    Cancel,
    Slot,
}

// The first word of a content.
#[derive(Clone, Copy)]
pub enum ContentName {
    Deaf,
    Data,
    Aloha,
    Reply,
    Go,
    Ahy,
    Ahyq,
    Head,
    Mark,
    Bcast,
    Move,
    Other,
}
