// What is shown of a load: "number,mark,state,load rule,row rule".
#[derive(Clone, Copy)]
pub struct Entry {
    pub number: u8,
    pub mark: u8,
    pub state: u8,
    pub rule: u8,
    pub row: u8,
}
