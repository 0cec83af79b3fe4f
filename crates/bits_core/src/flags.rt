/// The four status flags that instructions here set and conditions read: CF, ZF, SF and OF
/// (Intel SDM volume 1, section 3.4.3.1).
#[derive(Clone, Copy, Debug, PartialEq, Eq)]
pub struct Flags {
    pub carry: bool,
    pub zero: bool,
    pub sign: bool,
    pub over: bool,
}
