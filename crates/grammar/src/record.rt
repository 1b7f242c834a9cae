// The record of a PDU. Every list is there in every record; what the PDU does not carry, unused places and an absent extension are zero.
use bits::DigitCount;

// A user, group or destination: its SSI, whether an extension is present, and the extension.
#[derive(Clone, Copy, Default)]
pub struct Identity {
    pub ssi: u32,
    pub present: u32,
    pub extension: u32,
}

// A range type and its entries.
#[derive(Clone, Copy, Default)]
pub struct Identities {
    pub code: u32,
    pub entries: [Identity; 8],
}

// An external subscriber number.
#[derive(Clone, Copy)]
pub struct Number {
    pub length: DigitCount,
    pub digits: [u8; 24],
}

#[derive(Clone, Copy)]
pub struct Numbers {
    pub code: u32,
    pub entries: [Number; 8],
}

// The number of services and the services.
#[derive(Clone, Copy, Default)]
pub struct Services {
    pub count: u32,
    pub list: [u32; 7],
}

// The lists: closed user groups, restricted identities and exceptions to them, restricted external numbers and exceptions to those.
#[derive(Clone, Copy)]
pub struct Lists {
    pub groups: Identities,
    pub restricted: Identities,
    pub exceptions: Identities,
    pub numbers: Numbers,
    pub excepted: Numbers,
}

// The figures of a PDU, of which each type carries at most three: interrogation type, interrogation result, delivery status;
// delivery to affected users, acknowledgement from them, definition type; definition result, distribution result, rejection cause.
#[derive(Clone, Copy, PartialEq, Eq, Default)]
pub struct Figures {
    pub asked: u32,
    pub result: u32,
    pub status: u32,
    pub delivery: u32,
    pub acknowledgement: u32,
    pub definition: u32,
    pub defined: u32,
    pub distributed: u32,
    pub cause: u32,
}

// PDU type, affected users, figures, services, lists.
#[derive(Clone, Copy)]
pub struct Record {
    pub kind: u32,
    pub affected: Identities,
    pub figures: Figures,
    pub services: Services,
    pub lists: Lists,
}
