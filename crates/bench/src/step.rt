//! A step with its values.

#[derive(Drop)]
pub enum Step {
    Digest(Vec<u8>),
    Hmac {
        key: Vec<u8>,
        message: Vec<u8>,
    },
    Tag {
        token: Vec<u8>,
        sub: u8,
        params: Vec<u8>,
    },
    Read(Vec<u8>),
    Explain(Vec<u8>),
    Help,
}
