// Contents: what was heard in a slot.
ghost use Rattle.script.specs.Cursor.{Follows};
ghost use Rattle.script.specs.Script.{aloha_fields, content_fields, content_within, division_fields, go_fields, move_fields, reply_fields};
ghost use Rattle.script.specs.Shut.{content-shut};

use crate::fault::Fault;
use crate::inner::InnerForm;
use crate::names::ContentName;
use crate::reader::Reader;
use signalling::content::{Content, FirstIdent, Function, ReplyKind};
use signalling::division::Division;

impl Reader<'_> {
    // An address qualifier and an address.
    fn division(&mut self) -> Result<Division, Fault>
        ensures { Follows division_fields self.old self.new result }
    {
        self.two()
            .map(|(qualifier, address)| Division { qualifier, address })
    }

    // What follows `aloha`: the function, the Aloha number N, the response delay WT, and the division
    // that M and the address name.
    fn aloha_fields(&mut self) -> Result<Content, Fault>
        ensures { Follows aloha_fields self.old self.new result }
    {
        let function: Function = self.field()?;
        let (number, wt) = self.two()?;
        let division = self.division()?;
        Ok(Content::Aloha {
            function,
            number,
            wt,
            division,
        })
    }

    // What follows `reply`: the kind of acknowledgement, its qualifier, the Aloha number, the first
    // ident and the address replied to.
    fn reply_fields(&mut self) -> Result<Content, Fault>
        ensures { Follows reply_fields self.old self.new result }
    {
        let kind: ReplyKind = self.field()?;
        let (qual, number) = self.two()?;
        let first: FirstIdent = self.field()?;
        let to: u32 = self.field()?;
        Ok(Content::Reply {
            kind,
            qual,
            number,
            first,
            to,
        })
    }

    // What follows `go`: the two addresses of the call, its channel, and the Aloha number.
    fn go_fields(&mut self) -> Result<Content, Fault>
        ensures { Follows go_fields self.old self.new result }
    {
        let (to, partner) = self.two()?;
        let (channel, number) = self.two()?;
        Ok(Content::Go {
            to,
            partner,
            channel,
            number,
        })
    }

    // What follows `move`: the division that M and the address name, and the new control channel.
    fn move_fields(&mut self) -> Result<Content, Fault>
        ensures { Follows move_fields self.old self.new result }
    {
        let division = self.division()?;
        let channel: u32 = self.field()?;
        Ok(Content::Move { division, channel })
    }

    // What follows the first word of a content.
    fn content_fields(&mut self, name: ContentName) -> Result<Content, Fault>
        ensures { Follows (content_fields name) self.old self.new result }
    {
        match name {
            ContentName::Deaf => Ok(Content::Deaf),
            ContentName::Data => self.two().map(|(rsa, mine)| Content::Data { rsa, mine }),
            ContentName::Aloha => self.aloha_fields(),
            ContentName::Reply => self.reply_fields(),
            ContentName::Go => self.go_fields(),
            ContentName::Ahy => self.two().map(|(ad, to)| Content::Ahy { ad, to }),
            ContentName::Ahyq => self.two().map(|(ipfixi, to)| Content::Ahyq { ipfixi, to }),
            ContentName::Head => self.field().map(|to| Content::Head { to }),
            ContentName::Mark => Ok(Content::Mark),
            ContentName::Bcast => Ok(Content::Bcast),
            ContentName::Move => self.move_fields(),
            ContentName::Other => Ok(Content::Other),
        }
    }
}

// A content in its brackets.
impl InnerForm for Content {
    ghost within = { content_within };

    ghost shut = { content-shut };

    fn read_within(reader: &mut Reader<'_>) -> Result<Content, Fault> {
        let name: ContentName = reader.word()?;
        reader.content_fields(name)
    }
}
